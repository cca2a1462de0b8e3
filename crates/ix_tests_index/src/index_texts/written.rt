//! Tables and bytes as these tests write them. In a table each line is a question, ` = ` and its answer. Of bytes,
//! texts stand between two `'`, and each of the others is two digits in base 16.
use std::alloc::Global;
use std::test::Fail;

/// The bytes that are written so. Spaces and ends of lines between digits are nothing.
pub(super) fn bytes_of(alloc: Global, written: &str) -> Result<Vec<u8>, Fail> {
    let mut bytes = Vec::new(alloc);
    for (number, part) in written.split('\'').enumerate() {
        if number % 2 == 1 {
            bytes.extend_from_slice(part.as_bytes())?;
        } else {
            push_digits(&mut bytes, part)?;
        }
    }
    Ok(bytes)
}

fn push_digits(bytes: &mut Vec<u8>, digits: &str) -> Result<(), Fail> {
    let mut before = None;
    for character in digits.chars() {
        match (before, character.to_digit(16)) {
            (None, Some(high)) => before = Some(high),
            (Some(high), Some(low)) => {
                bytes.push((high % 16 * 16 + low % 16) as u8)?;
                before = None;
            }
            (None, None) if character == ' ' || character == '\n' => {}
            _ => return Err("neither two digits nor a space")?,
        }
    }
    Ok(())
}

/// The bytes as digits in base 16.
pub(super) fn digits(alloc: Global, bytes: &[u8]) -> Result<String, Fail> {
    let mut text = String::new(alloc);
    for byte in bytes {
        let two = format!(in alloc; "{byte:02x}")?;
        text.push_str(&two)?;
    }
    Ok(text)
}

/// The question of a line.
pub(super) fn question_of(line: &str) -> Result<&str, Fail> {
    let Some((question, _)) = line.split_once(" = ") else {
        return Err("a question has an answer")?;
    };
    Ok(question)
}

/// Adds a line to a table.
pub(super) fn push_line(table: &mut String, question: &str, answer: &str) -> Result<(), Fail> {
    table.push_str(question)?;
    table.push_str(" = ")?;
    table.push_str(answer)?;
    table.push('\n')?;
    Ok(())
}

/// The number that is written in digits.
pub(super) fn number_of(digits: &str) -> Result<u32, Fail> {
    let Ok(number) = digits.parse::<u32>() else {
        return Err("no number")?;
    };
    Ok(number)
}
