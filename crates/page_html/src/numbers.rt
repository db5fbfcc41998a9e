//! Numbers in HTML.
ghost use Rattle.std.specs.Prelude.{◌≡◌, ◌<◌, ◌^◌, ◌++◌, OnOk};
ghost use Rattle.std.specs.Fmt.{decimal};
ghost use Rattle.tree_rows.specs.TreeText.{quotient};
ghost use Rattle.page_html.specs.Table.{attribute, hundredths, share};

use itoa::Buffer;
use std::alloc::{AllocError, Global};

/// Adds a number.
pub(crate) fn push_number(out: &mut Vec<u8>, number: u128) -> Result<(), AllocError>
    ensures added { OnOk result (out.new.items ≡ out.old.items ++ decimal number) }
{
    let mut digits = Buffer::new();
    out.extend_from_slice(digits.format(number).as_bytes())
}

/// Adds an attribute whose value is a number.
#[tactic(auto, using(std::proofs::Common::append_assoc), unfolding(crate::specs::Table::attribute))]
pub(crate) fn push_attribute(out: &mut Vec<u8>, name: &[u8], number: u128) -> Result<(), AllocError>
    ensures added { OnOk result (out.new.items ≡ out.old.items ++ attribute name.now number) }
{
    out.extend_from_slice(b" ")?;
    out.extend_from_slice(name)?;
    out.extend_from_slice(b"=\"")?;
    push_number(out, number)?;
    out.extend_from_slice(b"\"")
}

/// Adds a quotient, rounded down; a dash if nothing can be divided by.
pub(crate) fn push_quotient(out: &mut Vec<u8>, number: u128, by: u128) -> Result<(), AllocError>
    ensures added { OnOk result (out.new.items ≡ out.old.items ++ quotient number by) }
{
    if by == 0 {
        return out.extend_from_slice(b"-");
    }
    push_number(out, number / by)
}

/// Adds how much of a whole a part is, in hundredths with one digit behind the point, rounded down; a dash if the whole is nothing.
#[tactic(auto, unfolding(crate::specs::Table::share))]
pub(crate) fn push_share(out: &mut Vec<u8>, part: u128, whole: u128) -> Result<(), AllocError>
    requires small { part < 2 ^ 110 }
    ensures added { OnOk result (out.new.items ≡ out.old.items ++ share part whole) }
{
    if whole == 0 {
        return out.extend_from_slice(b"-");
    }
    push_hundredths(out, part * 1000 / whole)
}

// Adds tenths of a hundredth as hundredths.
#[tactic(auto, using(std::proofs::Common::append_assoc), unfolding(crate::specs::Table::hundredths))]
fn push_hundredths(out: &mut Vec<u8>, tenths: u128) -> Result<(), AllocError>
    ensures added { OnOk result (out.new.items ≡ out.old.items ++ hundredths tenths) }
{
    push_number(out, tenths / 10)?;
    out.extend_from_slice(b".")?;
    push_number(out, tenths % 10)?;
    out.extend_from_slice(b"%")
}
