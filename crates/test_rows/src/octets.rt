use crate::rows::number;
use std::alloc::AllocError;

/// Appends the octets that a text of a row spells.
pub fn push_octets(text: &str, octets: &mut Vec<u8>) -> Result<(), AllocError> {
    let (front, rest) = text.split_once('<').unwrap_or((text, ""));
    octets.extend_from_slice(front.as_bytes())?;
    for piece in rest.split('<') {
        push_piece(piece, octets)?;
    }
    Ok(())
}

/// Appends what stands between `<` and the next one: what is spelled before its `>`, and then the text after that.
fn push_piece(piece: &str, octets: &mut Vec<u8>) -> Result<(), AllocError> {
    let Some((spelled, plain)) = piece.split_once('>') else {
        return Ok(());
    };
    push_spelled(spelled, octets)?;
    octets.extend_from_slice(plain.as_bytes())
}

/// Appends what stands between `<` and `>`: `TEXT*N`, or an octet by its two hexadecimal digits.
fn push_spelled(spelled: &str, octets: &mut Vec<u8>) -> Result<(), AllocError> {
    match spelled.split_once('*') {
        Some((text, times)) => {
            push_repeated(
                text.as_bytes(),
                number(times.as_bytes()).unwrap_or(0),
                octets,
            )
        },
        None => Ok(octets.push(octet(spelled))?),
    }
}

/// Appends octets so many times.
pub fn push_repeated(text: &[u8], times: usize, octets: &mut Vec<u8>) -> Result<(), AllocError> {
    for _ in 0..times {
        octets.extend_from_slice(text)?;
    }
    Ok(())
}

fn octet(digits: &str) -> u8 {
    u8::from_str_radix(digits, 16).unwrap_or(b'?')
}

/// Appends octets as a file of wanted text shows them, and a line end: printable ASCII and line ends as they are, and others as
/// `<0D>`.
pub fn push_shown(octets: &[u8], shown: &mut Vec<u8>) -> Result<(), AllocError> {
    for octet in octets {
        match *octet {
            b'\n' | b' '..=b'~' => shown.push(*octet)?,
            other => push_number(other, shown)?,
        }
    }
    shown.push(b'\n')?;
    Ok(())
}

fn push_number(octet: u8, shown: &mut Vec<u8>) -> Result<(), AllocError> {
    let digits = [b'<', digit(octet >> 4), digit(octet & 15), b'>'];
    shown.extend_from_slice(&digits)
}

/// The hexadecimal digit of a number.
fn digit(number: u8) -> u8 {
    match number {
        0..=9 => b'0' + number,
        10..=15 => b'A' + (number - 10),
        _ => b'?',
    }
}
