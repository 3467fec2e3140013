ghost use Rattle.std.specs.Prelude.{◌≡◌, ◌++◌, ◌<◌, ◌+◌, length, OnOk, string_bytes, replicate};
ghost use Rattle.std.specs.Str.{IsAscii};
ghost use Rattle.pm_canonical.specs.Canon.{padded, pointed, canon_number};

use itoa::Buffer;
use std::alloc::AllocError;

fn put_zeros(out: &mut String, n: usize) -> Result<(), AllocError>
    ensures { OnOk result (string_bytes out.new ≡ string_bytes out.old ++ replicate n 48) }
{
    'zeros: for _ in 0..n {
        out.push_str("0")?;
    }
    Ok(())
}

// Digits with a point before so many of them, and a zero before the point where none stands there.
#[tactic(auto, using(crate::proofs::Points::pointed_none, crate::proofs::Points::pointed_empty, crate::proofs::Points::pointed_long, crate::proofs::Points::pointed_short, crate::proofs::Points::cut_digits))]
fn put_pointed(out: &mut String, digits: &str, decimals: usize) -> Result<(), AllocError>
    requires { IsAscii digits.now }
    ensures { OnOk result (string_bytes out.new ≡ string_bytes out.old ++ pointed decimals (padded (decimals + 1) digits.now)) }
{
    if digits.len() > decimals {
        return put_split(out, digits, decimals);
    }
    if decimals == 0 {
        out.push_str("0")?;
        return Ok(());
    }
    out.push_str("0.")?;
    put_zeros(out, decimals - digits.len())?;
    out.push_str(digits)?;
    Ok(())
}

#[tactic(auto, using(crate::proofs::Points::pointed_none, crate::proofs::Points::pointed_long, crate::proofs::Points::cut_digits))]
fn put_split(out: &mut String, digits: &str, decimals: usize) -> Result<(), AllocError>
    requires ascii { IsAscii digits.now }
    requires more { decimals < length digits.now }
    ensures { OnOk result (string_bytes out.new ≡ string_bytes out.old ++ pointed decimals (padded (decimals + 1) digits.now)) }
{
    if decimals == 0 {
        out.push_str(digits)?;
        return Ok(());
    }
    let (whole, part) = digits.split_at(digits.len() - decimals);
    out.push_str(whole)?;
    out.push_str(".")?;
    out.push_str(part)?;
    Ok(())
}

// A number with all its decimals.
#[tactic(auto, unfolding(crate::specs::Canon::canon_number))]
pub(crate) fn put_number(out: &mut String, value: i128, decimals: u8) -> Result<(), AllocError>
    ensures { OnOk result (string_bytes out.new ≡ string_bytes out.old ++ canon_number value decimals) }
{
    if value < 0 {
        out.push_str("-")?;
    }
    let mut buffer = Buffer::new();
    put_pointed(out, buffer.format(value.unsigned_abs()), decimals as usize)
}
