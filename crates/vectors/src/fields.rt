// What a line's fields write: bytes, numbers, and tables. A field that writes none is malformed.
ghost use Rattle.std.specs.Prelude.{◌≤◌, length, IfSome};

use std::str::FromStr;

// The bytes that a field writes by two digits each, put at the start of a buffer that may be too short for them.
pub(crate) fn read_bytes<'a>(field: &[u8], buffer: &'a mut [u8]) -> Option<&'a [u8]>
    ensures { IfSome result (λ bytes. length bytes.now ≤ length buffer.old) }
{
    if matches!(field, b"-") {
        return Some(&[]);
    }
    if field.is_empty() || field.iter().any(|byte| byte.is_ascii_uppercase()) {
        return None;
    }
    let bytes = buffer.get_mut(..field.len() / 2)?;
    hex::decode_to_slice(field, bytes).ok()?;
    Some(bytes)
}

// What std reads of a field. A plus, which std allows, is no part of it.
fn parsed<N: FromStr>(field: &[u8]) -> Option<N>
where
    N::Err: Drop,
{
    if field.starts_with(b"+") {
        return None;
    }
    str::from_utf8(field).ok()?.parse().ok()
}

// The number that decimal digits write, up to a limit.
pub(crate) fn read_number(field: &[u8], most: u32) -> Option<u32>
    ensures { IfSome result (λ number. number ≤ most) }
{
    let number = parsed(field)?;
    if number <= most { Some(number) } else { None }
}

// The table that a field writes, put at the start of a buffer that may be too short for it. A value is decimal digits, which a minus may precede.
pub(crate) fn read_table<'a>(field: &[u8], buffer: &'a mut [i32]) -> Option<&'a mut [i32]>
    ensures { IfSome result (λ table. length table.now ≤ length buffer.old) }
{
    if matches!(field, b"-") {
        return Some(&mut []);
    }
    let count = field.split(|byte| *byte == b',').count();
    let table = buffer.get_mut(..count)?;
    for (entry, value) in table.iter_mut().zip(field.split(|byte| *byte == b',')) {
        *entry = parsed(value)?;
    }
    Some(table)
}
