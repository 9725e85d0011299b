//! Numbers and names as words.

use std::alloc::{AllocError, Global};
use std::fmt::Write;

/// Appends a number with a comma in front of each three digits.
pub(crate) fn put_count(text: &mut String, alloc: Global, number: u64) -> Result<(), AllocError> {
    let digits = format!(in alloc; "{number}")?;
    let digits = digits.as_str();
    for (i, digit) in digits.chars().enumerate() {
        if i > 0 && digits.len().saturating_sub(i).is_multiple_of(3) {
            text.push(',')?;
        }
        text.push(digit)?;
    }
    Ok(())
}

/// Appends a name of a standard in small letters, with spaces for its low lines, and without `DIAMETER` in front.
pub(crate) fn put_plain(text: &mut String, name: &str) -> Result<(), AllocError> {
    for letter in name.strip_prefix("DIAMETER_").unwrap_or(name).chars() {
        match letter {
            '_' => text.push(' ')?,
            _ => text.push(letter.to_ascii_lowercase())?,
        }
    }
    Ok(())
}

/// Appends a part of a line, behind a semicolon where it isn't the first.
pub(crate) fn put_part(text: &mut String, part: &str) -> Result<(), AllocError> {
    if !text.is_empty() {
        text.push_str("; ")?;
    }
    text.push_str(part)
}

/// Appends a price: minor units, the power of ten that one is, and the currency, each as far as it is told.
pub(crate) fn put_price(
    text: &mut String,
    digits: i64,
    exponent: i32,
    currency: Option<u32>,
) -> Result<(), AllocError> {
    write!(text, "price {digits}")?;
    if exponent != 0 {
        write!(text, " x 10^{exponent}")?;
    }
    match currency {
        Some(currency) => write!(text, " in currency {currency}"),
        None => Ok(()),
    }
}
