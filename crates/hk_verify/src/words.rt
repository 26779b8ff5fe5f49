//! The words of `verify KERNEL SPEC [--conflicts N]`, of `run KERNEL FUNCTION [ARG ..]` and of `bench N`.

ghost use Rattle.std.specs.Prelude.{◌≡◌, ◌<◌, ◌≤◌, ◌^◌, ◌∷◌, [], ℕ, List, IfSome, IfNone, IfOk, IsTrue, All, false, map, bytes_eq, codes};
ghost use Rattle.std.specs.Fmt.{decimal};
ghost use Rattle.hk_verify.specs.Words.{AllowConflicts, AreNumbers, AsksFor, IsBench, IsCertifying, IsRun, IsVerify, bytes_of};

use itoa::Buffer;
use std::alloc::{AllocError, Global};

/// The conflicts that a round of the solver may take where the words name no number.
pub const USUAL_CONFLICTS: u64 = 20_000;

/// The most conflicts that the words may name.
const MOST_CONFLICTS: u64 = 1_000_000;

/// The most handlers that a generated workload has.
const MOST_HANDLERS: u64 = 64;

/// Whether a word is the decimal digits of a number.
fn spells(word: &str, number: u64) -> bool
    ensures { result ≡ bytes_eq word.now (decimal number) }
{
    word.as_bytes() == Buffer::new().format(number).as_bytes()
}

/// The number of which a word is the decimal digits.
fn number_of(word: &str) -> Option<u64>
    ensures number { IfSome result (λ n. word.now ≡ decimal n) }
    ensures small { IfSome result (λ n. n < 2 ^ 64) }
    ensures none { IfNone result ((n : ℕ) → n < 2 ^ 64 → word.now ≡ decimal n → ⊥) }
{
    match word.parse::<u64>() {
        Ok(number) => {
            if spells(word, number) {
                Some(number)
            } else {
                None
            }
        }
        Err(_) => None,
    }
}

/// The number from 1 to `most` of which a word is the decimal digits.
fn number_to(word: &str, most: u64) -> Option<u64>
    ensures number { IfSome result (λ n. word.now ≡ decimal n) }
    ensures some { IfSome result (λ n. 1 ≤ n) }
    ensures most { IfSome result (λ n. n ≤ most) }
    ensures none { IfNone result ((n : ℕ) → 1 ≤ n → n ≤ most → word.now ≡ decimal n → ⊥) }
{
    match number_of(word) {
        Some(number) => {
            if 1 <= number && number <= most {
                Some(number)
            } else {
                None
            }
        }
        None => None,
    }
}

/// The conflicts that a round may take by the options of `verify`.
fn allowed(options: &[String]) -> Option<u64>
    ensures allowed { IfSome result (AllowConflicts (bytes_of options.now)) }
    ensures none { IfNone result ((budget : ℕ) → AllowConflicts (bytes_of options.now) budget → ⊥) }
{
    match options {
        [] => Some(USUAL_CONFLICTS),
        [option, number] => {
            if option.as_str() == "--conflicts" {
                number_to(number.as_str(), MOST_CONFLICTS)
            } else {
                None
            }
        }
        _ => None,
    }
}

/// The names of the kernel and the specification and the conflicts that a round may take, where the words are those of `verify`. It takes
/// no memory.
pub fn behind_verify<'x>(words: &'x [String]) -> Option<(&'x str, &'x str, u64)>
    ensures form { IfSome result (λ r. IsVerify (bytes_of words.now) r.0.now r.1.now r.2) }
    ensures some { IfSome result (λ r. 1 ≤ r.2) }
    ensures none { IfNone result ((kernel spec : List ℕ) (budget : ℕ) → IsVerify (bytes_of words.now) kernel spec budget → ⊥) }
{
    match words {
        [command, kernel, spec, options @ ..] => {
            if command.as_str() != "verify" {
                return None;
            }
            match allowed(options) {
                Some(budget) => Some((kernel.as_str(), spec.as_str(), budget)),
                None => None,
            }
        }
        _ => None,
    }
}

/// The conflicts that a round may take and the name of the certificate by the options of `verify`, where they ask for one.
fn certified(options: &[String]) -> Option<(u64, &str)>
    ensures form { IfSome result (λ r. AsksFor (bytes_of options.now) r.0 r.1.now) }
    ensures some { IfSome result (λ r. 1 ≤ r.0) }
    ensures none { IfNone result ((budget : ℕ) (cert : List ℕ) → AsksFor (bytes_of options.now) budget cert → ⊥) }
{
    match options {
        [front @ .., option, cert] => {
            if option.as_str() != "--cert" {
                return None;
            }
            match allowed(front) {
                Some(budget) => Some((budget, cert.as_str())),
                None => None,
            }
        }
        _ => None,
    }
}

/// What the words of `verify` with a certificate asked for name: the files of the kernel and the specification, the conflicts that a round
/// may take, and the file of the certificate.
#[derive(Drop)]
pub struct Certifying<'x> {
    pub kernel: &'x str,
    pub spec: &'x str,
    pub budget: u64,
    pub cert: &'x str,
}

/// What the words name, where they are those of `verify` with a certificate asked for. It takes no memory.
pub fn behind_certifying<'x>(words: &'x [String]) -> Option<Certifying<'x>>
    ensures form { IfSome result (λ r. IsCertifying (bytes_of words.now) r.kernel.now r.spec.now r.budget r.cert.now) }
    ensures some { IfSome result (λ r. 1 ≤ r.budget) }
    ensures none { IfNone result ((kernel spec : List ℕ) (budget : ℕ) (cert : List ℕ) → IsCertifying (bytes_of words.now) kernel spec budget cert → ⊥) }
{
    match words {
        [command, kernel, spec, options @ ..] => {
            if command.as_str() != "verify" {
                return None;
            }
            match certified(options) {
                Some((budget, cert)) => Some(Certifying {
                    kernel: kernel.as_str(),
                    spec: spec.as_str(),
                    budget,
                    cert,
                }),
                None => None,
            }
        }
        _ => None,
    }
}

/// The three names behind a command, where the words are just these four. It takes no memory.
pub fn three_behind<'x>(
    words: &'x [String],
    command: &'x str,
) -> Option<(&'x str, &'x str, &'x str)>
    ensures form { IfSome result (λ names. bytes_of words.now ≡ command.now ∷ names.0.now ∷ names.1.now ∷ names.2.now ∷ []) }
    ensures no_form { IfNone result ((first second third : List ℕ) → bytes_of words.now ≡ command.now ∷ first ∷ second ∷ third ∷ [] → ⊥) }
{
    match words {
        [word, first, second, third] => {
            if word.as_str() == command {
                Some((first.as_str(), second.as_str(), third.as_str()))
            } else {
                None
            }
        }
        _ => None,
    }
}

/// Whether each word is the decimal digits of a number below 2^64.
fn are_numbers(words: &[String]) -> bool
    ensures numbers { IsTrue result → AreNumbers (bytes_of words.now) }
    ensures none { result ≡ false → AreNumbers (bytes_of words.now) → ⊥ }
{
    for word in words {
        if number_of(word.as_str()).is_none() {
            return false;
        }
    }
    true
}

/// The names of the kernel and the function and the words of the arguments, where the words are those of `run`. It takes no memory.
pub fn behind_run<'x>(words: &'x [String]) -> Option<(&'x str, &'x str, &'x [String])>
    ensures form { IfSome result (λ r. bytes_of words.now ≡ codes "run" ∷ r.0.now ∷ r.1.now ∷ bytes_of r.2.now) }
    ensures numbers { IfSome result (λ r. AreNumbers (bytes_of r.2.now)) }
    ensures none { IfNone result ((kernel function : List ℕ) (arguments : List ℕ) → IsRun (bytes_of words.now) kernel function arguments → ⊥) }
{
    match words {
        [command, kernel, function, arguments @ ..] => {
            if command.as_str() == "run" && are_numbers(arguments) {
                Some((kernel.as_str(), function.as_str(), arguments))
            } else {
                None
            }
        }
        _ => None,
    }
}

/// The number of a word; 0 where it is none.
fn value_of(word: &str) -> u64
    ensures { (n : ℕ) → n < 2 ^ 64 → word.now ≡ decimal n → result ≡ n }
{
    match number_of(word) {
        Some(number) => number,
        None => 0,
    }
}

/// The numbers of which the words are the decimal digits, where they are.
pub fn numbers_of(alloc: Global, words: &[String]) -> Result<Vec<u64>, AllocError>
    ensures { IfOk result (λ numbers. (arguments : List ℕ) → bytes_of words.now ≡ map decimal arguments → All (λ n. n < 2 ^ 64) arguments → numbers.items ≡ arguments) }
{
    let mut numbers = Vec::new(alloc);
    for word in words {
        numbers.push(value_of(word.as_str()))?;
    }
    Ok(numbers)
}

/// The number of handlers of a generated workload, where the words are those of `bench`. It takes no memory.
pub fn behind_bench(words: &[String]) -> Option<u64>
    ensures form { IfSome result (IsBench (bytes_of words.now)) }
    ensures some { IfSome result (λ n. 1 ≤ n) }
    ensures few { IfSome result (λ n. n ≤ 64) }
    ensures none { IfNone result ((n : ℕ) → IsBench (bytes_of words.now) n → ⊥) }
{
    match words {
        [command, number] => {
            if command.as_str() == "bench" {
                number_to(number.as_str(), MOST_HANDLERS)
            } else {
                None
            }
        }
        _ => None,
    }
}
