//! The headers of lists, maps, arrays and described values.

ghost use Rattle.std.specs.Prelude.{◌≡◌, ◌∷◌, ◌*◌, IfOk, Some, suc};
ghost use Rattle.amqp_ser.specs.Tree.{code as numbered};
ghost use Rattle.amqp_decode.specs.Parsed.{descriptor_at, cut, number_at, sized_at};
ghost use Rattle.amqp_decode.specs.Prefix.{IsListOf, IsMapOf, IsArrayOf, IsDescribedBy, HasCountOf, HasCountOfPayloads};
ghost use Rattle.amqp_decode.specs.Scalars.{exact};

use crate::prefix::gave_up::GaveUp;

/// Returns the depth that is left for the values inside a value.
#[inline(always)]
pub fn below(depth: u16) -> Result<u16, GaveUp>
    ensures { IfOk result (λ d. depth ≡ suc d) }
{
    if depth == 0 {
        Err(GaveUp)
    } else {
        Ok(depth - 1)
    }
}

/// Opens a list: returns the number of its elements, the bytes of the elements, and the bytes after
/// the list.
///
/// # Encoding
/// The codes `45`, `c0` and `d0` (AMQP 1.0 part 1, section 1.6.22).
#[inline(always)]
pub fn split_list(code: u8, bytes: &[u8]) -> Result<(u32, &[u8], &[u8]), GaveUp>
    ensures opened { IfOk result (λ r. IsListOf (code ∷ bytes.now) r.2.now r.0 r.1.now) }
    ensures counted { IfOk result (λ r. HasCountOf (code ∷ bytes.now) r.0 r.1.now) }
{
    match code {
        0xc0 => {
            let (content, rest) = split_sized(false, bytes)?;
            let (count, body) = split_number(false, content)?;
            Ok((count, body, rest))
        }
        0xd0 => {
            let (content, rest) = split_sized(true, bytes)?;
            let (count, body) = split_number(true, content)?;
            Ok((count, body, rest))
        }
        0x45 => Ok((0, &[], bytes)),
        _ => Err(GaveUp),
    }
}

/// Opens a map: returns the number of its entries, the bytes of the keys and values, and the bytes
/// after the map.
///
/// # Encoding
/// The codes `c1` and `d1` (AMQP 1.0 part 1, section 1.6.23). Gives up on an odd count.
#[inline(always)]
pub fn split_map(code: u8, bytes: &[u8]) -> Result<(u32, &[u8], &[u8]), GaveUp>
    ensures opened { IfOk result (λ r. IsMapOf (code ∷ bytes.now) r.2.now r.0 r.1.now) }
    ensures counted { IfOk result (λ r. HasCountOf (code ∷ bytes.now) (2 * r.0) r.1.now) }
{
    let wide = match code {
        0xc1 => false,
        0xd1 => true,
        _ => return Err(GaveUp),
    };
    let (content, rest) = split_sized(wide, bytes)?;
    let (count, body) = split_number(wide, content)?;
    if count % 2 != 0 {
        return Err(GaveUp);
    }
    Ok((count / 2, body, rest))
}

/// Opens an array that has elements with bytes: returns their number, their format code, their
/// payloads, and the bytes after the array.
///
/// # Encoding
/// The codes `e0` and `f0` (AMQP 1.0 part 1, section 1.6.24). Gives up on an array without
/// elements, and on elements without bytes (`40` to `45`), of which the bytes do not limit the
/// number.
#[inline(always)]
pub fn split_array(code: u8, bytes: &[u8]) -> Result<(u32, u8, &[u8], &[u8]), GaveUp>
    ensures opened { IfOk result (λ r. IsArrayOf (code ∷ bytes.now) r.3.now r.0 r.1 r.2.now) }
    ensures counted { IfOk result (λ r. HasCountOfPayloads (code ∷ bytes.now) r.0 r.1 r.2.now) }
{
    let wide = match code {
        0xe0 => false,
        0xf0 => true,
        _ => return Err(GaveUp),
    };
    let (content, rest) = split_sized(wide, bytes)?;
    let (count, body) = split_number(wide, content)?;
    let (constructor, payloads) = split_byte(body)?;
    if count == 0 || constructor == 0 || constructor / 16 == 4 {
        return Err(GaveUp);
    }
    Ok((count, constructor, payloads, rest))
}

/// Opens a described value with this numeric descriptor: returns the format code of the value
/// inside and the bytes after it.
#[inline(always)]
pub fn split_described(wanted: u64, code: u8, bytes: &[u8]) -> Result<(u8, &[u8]), GaveUp>
    ensures { IfOk result (λ r. IsDescribedBy (numbered wanted) (code ∷ bytes.now)
        (r.0 ∷ r.1.now)) }
{
    if code != 0 {
        return Err(GaveUp);
    }
    let (of_descriptor, after) = split_byte(bytes)?;
    let (found, rest) = numeric(of_descriptor, after)?;
    if found != wanted {
        return Err(GaveUp);
    }
    split_byte(rest)
}

// Reads a ulong as a descriptor.
#[inline(always)]
fn numeric(code: u8, bytes: &[u8]) -> Result<(u64, &[u8]), GaveUp>
    ensures { IfOk result (λ r. descriptor_at (code ∷ bytes.now) ≡ Some (numbered r.0, r.1.now)) }
{
    match code {
        0x53 => {
            let (value, rest) = split_byte(bytes)?;
            Ok((u64::from(value), rest))
        }
        0x80 => {
            let (value, rest) = split_bytes::<8>(bytes)?;
            Ok((u64::from_be_bytes(value), rest))
        }
        _ => Err(GaveUp),
    }
}

/// Splits off the first byte.
///
/// # Example
/// From `5205`, returns `52` and the rest `05`.
#[inline(always)]
pub fn split_byte(bytes: &[u8]) -> Result<(u8, &[u8]), GaveUp>
    ensures { IfOk result (λ r. bytes.now ≡ r.0 ∷ r.1.now) }
{
    match bytes.split_first() {
        Some((first, rest)) => Ok((*first, rest)),
        None => Err(GaveUp),
    }
}

/// Splits off the first `N` bytes.
///
/// # Example
/// With `N` 2, from `000540`, returns `0005` and the rest `40`.
#[inline(always)]
pub fn split_bytes<const N: usize>(bytes: &[u8]) -> Result<([u8; N], &[u8]), GaveUp>
    ensures { IfOk result (λ r. (cut N bytes.now ≡ Some (r.0, r.1.now))
        × (exact N r.0 ≡ Some r.0)) }
{
    match bytes.split_first_chunk::<N>() {
        Some((first, rest)) => Ok((*first, rest)),
        None => Err(GaveUp),
    }
}

/// Splits off a number of four bytes if `wide`, otherwise of one byte.
///
/// # Encoding
/// Sizes and counts of payloads have this form (AMQP 1.0 part 1, section 1.2).
///
/// # Example
/// From `0540`, returns 5 and the rest `40` if not `wide`.
#[inline(always)]
pub fn split_number(wide: bool, bytes: &[u8]) -> Result<(u32, &[u8]), GaveUp>
    ensures { IfOk result (λ r. number_at wide bytes.now ≡ Some (r.0, r.1.now)) }
{
    if wide {
        match bytes.split_first_chunk::<4>() {
            Some((first, rest)) => Ok((u32::from_be_bytes(*first), rest)),
            None => Err(GaveUp),
        }
    } else {
        match bytes.split_first() {
            Some((first, rest)) => Ok((u32::from(*first), rest)),
            None => Err(GaveUp),
        }
    }
}

/// Splits off a size of four bytes if `wide`, otherwise of one byte, and returns as many bytes as
/// it says with the bytes that are left.
///
/// # Encoding
/// Payloads of variable width and of compounds have this form (AMQP 1.0 part 1, sections 1.2.2 and
/// 1.2.3).
///
/// # Example
/// From `01ff40`, returns `ff` and the rest `40` if not `wide`.
#[tactic(auto, unfolding(crate::specs::Parsed::sized_at))]
#[inline(always)]
pub fn split_sized(wide: bool, bytes: &[u8]) -> Result<(&[u8], &[u8]), GaveUp>
    ensures { IfOk result (λ r. sized_at wide bytes.now ≡ Some (r.0.now, r.1.now)) }
{
    let (len, rest) = split_number(wide, bytes)?;
    if len as usize <= rest.len() {
        Ok(rest.split_at(len as usize))
    } else {
        Err(GaveUp)
    }
}
