//! The AVPs in the answer to a one-time event beside its service: a price, and whether the balance covers it.

ghost use Rattle.std.specs.Prelude.{◌≡◌, ◌++◌, vec_len, option_map, OnOk};
ghost use Rattle.std.specs.List.{flat_map};
ghost use Rattle.std.specs.Option.{option_to_list};
ghost use Rattle.dcc_avp.specs.Spelling.{padded};
ghost use Rattle.dcc_answer.specs.Sizes.{Grows};
ghost use Rattle.dcc_credit.specs.Answers.{unit_value, cost_avp, balance_avp};

use dcc_act::Balance;
use dcc_answer::{put_u32, put_u64};
use dcc_avp::{begin_group, codes, end_group, flags};
use dcc_tariff::Terms;
use std::alloc::AllocError;

/// Appends the Cost-Information of a price in minor units, if there is a price (RFC 8506, section 8.7).
pub(crate) fn put_cost(
    out: &mut Vec<u8>,
    terms: &Terms,
    cost: Option<u64>,
) -> Result<(), AllocError>
    ensures ok { OnOk result (out.new.items ≡ out.old.items ++ flat_map padded (option_to_list (option_map (cost_avp terms.now) cost))) }
    ensures grows { OnOk result (Grows (vec_len out.old) (vec_len out.new) 80) }
{
    let Some(cost) = cost else {
        return Ok(());
    };
    let at = begin_group(out)?;
    put_unit_value(out, terms, cost)?;
    put_u32(out, codes::CURRENCY_CODE, terms.currency)?;
    end_group(out, at, codes::COST_INFORMATION, flags::MANDATORY);
    Ok(())
}

/// Appends a price as a Unit-Value (RFC 8506, section 8.8).
fn put_unit_value(out: &mut Vec<u8>, terms: &Terms, cost: u64) -> Result<(), AllocError>
    ensures ok { OnOk result (out.new.items ≡ out.old.items ++ padded (unit_value terms.now cost)) }
    ensures grows { OnOk result (Grows (vec_len out.old) (vec_len out.new) 50) }
{
    let at = begin_group(out)?;
    put_u64(out, codes::VALUE_DIGITS, cost)?;
    put_u32(out, codes::EXPONENT, terms.exponent.cast_unsigned())?;
    end_group(out, at, codes::UNIT_VALUE, flags::MANDATORY);
    Ok(())
}

/// Appends the Check-Balance-Result, if there is any (RFC 8506, section 8.6).
pub(crate) fn put_balance(out: &mut Vec<u8>, balance: Option<Balance>) -> Result<(), AllocError>
    ensures ok { OnOk result (out.new.items ≡ out.old.items ++ flat_map padded (option_to_list (option_map balance_avp balance))) }
    ensures grows { OnOk result (Grows (vec_len out.old) (vec_len out.new) 15) }
{
    match balance {
        Some(balance) => put_u32(out, codes::CHECK_BALANCE_RESULT, balance.number()),
        None => Ok(()),
    }
}
