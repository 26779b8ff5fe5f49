//! Texts of rows, each under a name.

use std::alloc::{AllocError, Global};

/// A name and a text.
#[derive(Drop)]
pub struct Text {
    name: String,
    text: String,
}

/// Begins a text.
pub fn begin(alloc: Global, texts: &mut Vec<Text>, name: &str) -> Result<(), AllocError> {
    let text = Text {
        name: String::from_str(alloc, name)?,
        text: String::new(alloc),
    };
    texts.push(text)?;
    Ok(())
}

/// Adds a line to the last text; false where there is none.
pub fn add_line(texts: &mut Vec<Text>, line: &str) -> Result<bool, AllocError> {
    match texts.last_mut() {
        Some(text) => {
            text.text.push_str(line)?;
            text.text.push('\n')?;
            Ok(true)
        }
        None => Ok(false),
    }
}

/// The text of a name, empty where there is none.
pub fn text_named<'t>(texts: &'t [Text], name: &str) -> &'t str {
    match texts.iter().find(|text| text.name.as_str() == name) {
        Some(text) => text.text.as_str(),
        None => "",
    }
}
