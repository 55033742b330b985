use anyhow::anyhow;
use std::alloc::Global;
use std::str::FromStr;
use ticket::Room;

#[derive(Clone, Copy)]
pub(crate) enum Code {
    Utf8,
    Latin1,
}

impl FromStr for Code {
    type Err = anyhow::Error;

    fn from_str(word: &str) -> anyhow::Result<Code> {
        match word {
            "utf8" => Ok(Code::Utf8),
            "latin1" => Ok(Code::Latin1),
            _ => Err(anyhow!("no such text code")),
        }
    }
}

/// A message, the text code to read it in, and the room for what it holds.
#[derive(Drop)]
pub(crate) struct Case {
    pub(crate) code: Code,
    pub(crate) room: Room,
    pub(crate) message: Vec<u8>,
}

/// Whether each is a hexadecimal digit, none of them a capital.
fn are_small_digits(digits: &[u8]) -> bool {
    digits
        .iter()
        .all(|digit| matches!(digit, b'0'..=b'9' | b'a'..=b'f'))
}

/// The bytes of a message in hexadecimal of small letters, `-` for an empty one.
fn parse_message(heap: Global, word: &str) -> anyhow::Result<Vec<u8>> {
    if word == "-" {
        return Ok(Vec::new(heap));
    }
    // the whole pairs are looked at before the half one that may stand behind them
    let digits = word.as_bytes();
    if !are_small_digits(&digits[..digits.len() / 2 * 2]) {
        return Err(anyhow!("no hexadecimal digit"));
    }
    if digits.len() % 2 == 1 {
        return Err(anyhow!("half a byte"));
    }
    Ok(hex::decode(heap, word)?)
}

impl Case {
    /// A line of the table: the text code, the room for fields, text bytes, carried records and carried bytes, and
    /// the message.
    pub(crate) fn parse(heap: Global, line: &str) -> anyhow::Result<Case> {
        let words: Vec<&str> = line.split_whitespace().collect(heap)?;
        let [code, fields, texts, carried, bodies, message] = words.as_slice() else {
            return Err(anyhow!("a case has six words"));
        };
        Ok(Case {
            code: code.parse::<Code>()?,
            room: Room {
                fields: fields.parse::<usize>()?,
                texts: texts.parse::<usize>()?,
                carried: carried.parse::<usize>()?,
                bodies: bodies.parse::<usize>()?,
            },
            message: parse_message(heap, message)?,
        })
    }
}
