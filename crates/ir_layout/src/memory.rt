//! Byte memory: the bytes of each object (LLVM Language Reference, "Memory Model").

ghost use Rattle.std.specs.Prelude.{◌≡◌, ◌+◌, ◌<◌, ◌≤◌, ◌^◌, length, slice_index, slice_set, IfOk};
ghost use Rattle.ir_layout.specs.Bytes.{IsWidth, object_of, number_at, with_number};

use std::alloc::{AllocError, Global};
use std::marker::Model;

/// The bytes of one object.
#[derive(Drop)]
pub struct ObjectBytes {
    items: Vec<u8>,
}

impl Model for ObjectBytes {
    ghost use Rattle.std.specs.Prelude.{List, ℕ};

    ghost Value = { List ℕ };

    ghost view = { λ b. b.items.items };
}

impl ObjectBytes {
    /// The object with these bytes. It takes no memory.
    pub fn new(items: Vec<u8>) -> ObjectBytes
        ensures { result ≡ items.items }
    {
        ObjectBytes { items }
    }

    /// The bytes.
    fn as_slice(&self) -> &[u8]
        ensures { result.now ≡ self.now }
    {
        self.items.as_slice()
    }

    /// A second object with the same bytes.
    pub fn copy(&self, alloc: Global) -> Result<ObjectBytes, AllocError>
        ensures { IfOk result (λ b. b ≡ self.now) }
    {
        Ok(ObjectBytes::new(Vec::from_slice(alloc, self.items.as_slice())?))
    }

    /// The number in so many bytes from an offset on.
    fn load(&self, offset: u64, bytes: u32) -> u64
        requires width { bytes ≤ 8 }
        requires within { offset + bytes ≤ length self.now }
        ensures { result ≡ number_at bytes offset self.now }
    {
        number_in(self.items.as_slice(), offset as usize, bytes as usize)
    }

    /// Writes a number into so many bytes from an offset on.
    fn store(&mut self, offset: u64, bytes: u32, value: u64)
        requires { offset + bytes ≤ length self.old }
        ensures { self.new ≡ with_number bytes offset value self.old }
    {
        let mut rest = value;
        for at in 0..bytes {
            self.items[offset as usize + at as usize] = (rest % 256) as u8;
            rest /= 256;
        }
    }
}

/// The byte at a place.
fn byte_at(items: &[u8], at: usize) -> u8
    requires { at < length items.now }
    ensures { result ≡ slice_index items.now at }
{
    items[at]
}

/// The number in so many bytes from an offset on.
fn number_in(items: &[u8], offset: usize, bytes: usize) -> u64
    requires width { bytes ≤ 8 }
    requires within { offset + bytes ≤ length items.now }
    ensures { result ≡ number_at bytes offset items.now }
{
    let mut number = 0;
    let mut left = bytes;
    while left > 0 {
        left -= 1;
        number = 256 * number + u64::from(byte_at(items, offset + left));
    }
    number
}

/// The bytes of the objects of a kernel, in text order. Numbers are little endian.
#[derive(Drop)]
pub struct KMemory {
    objects: Vec<ObjectBytes>,
}

impl Model for KMemory {
    ghost use Rattle.std.specs.Prelude.{List, ℕ};

    ghost Value = { List (List ℕ) };

    ghost view = { λ m. m.objects.items };
}

impl KMemory {
    /// The memory of these objects. It takes no memory.
    pub fn new(objects: Vec<ObjectBytes>) -> KMemory
        ensures { result ≡ objects.items }
    {
        KMemory { objects }
    }

    /// A second memory with the same bytes.
    pub fn copy(&self, alloc: Global) -> Result<KMemory, AllocError>
        ensures { IfOk result (λ m. m ≡ self.now) }
    {
        let mut objects = Vec::new(alloc);
        objects.reserve(self.objects.len())?;
        for object in &self.objects {
            objects.push(object.copy(alloc)?)?;
        }
        Ok(KMemory { objects })
    }

    /// How many objects there are. It takes no memory.
    pub fn objects(&self) -> usize
        ensures { result ≡ length self.now }
    {
        self.objects.len()
    }

    /// The bytes of an object. It takes no memory.
    pub fn bytes(&self, object: u32) -> &[u8]
        requires { object < length self.now }
        ensures { result.now ≡ object_of self.now object }
    {
        self.objects[object as usize].as_slice()
    }

    /// The number in the bytes of an object from an offset on. It takes no memory.
    pub fn load(&self, object: u32, offset: u64, bytes: u32) -> u64
        requires width { IsWidth bytes }
        requires object { object < length self.now }
        requires within { offset + bytes ≤ length (object_of self.now object) }
        ensures { result ≡ number_at bytes offset (object_of self.now object) }
    {
        self.objects[object as usize].load(offset, bytes)
    }

    /// Writes a number into the bytes of an object from an offset on. All other bytes are as before. It takes no memory.
    pub fn store(&mut self, object: u32, offset: u64, bytes: u32, value: u64)
        requires width { IsWidth bytes }
        requires object { object < length self.old }
        requires within { offset + bytes ≤ length (object_of self.old object) }
        requires fits { value < 256 ^ bytes }
        ensures { self.new ≡ slice_set self.old object (with_number bytes offset value (object_of self.old object)) }
    {
        self.objects[object as usize].store(offset, bytes, value);
    }
}
