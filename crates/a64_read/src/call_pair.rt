//! Reads what is passed to functions that are called, what comes back, and the registers that they change.

ghost use Rattle.std.specs.Prelude.{◌≡◌, ◌∷◌};
ghost use Rattle.a64_read.specs.Calls.{call_arg_text, IsCallArg, call_ret_text, IsCallRet};
ghost use Rattle.a64_read.specs.CallLaws.{call_arg_apart, call_arg_no_dash, call_ret_apart, call_ret_no_dash, preg_apart, preg_no_dash};
ghost use Rattle.a64_tokens.specs.Fields.{preg_text, IsPReg};
ghost use Rattle.a64_tokens.specs.Reads.{Reads};
ghost use Rattle.a64_tokens.specs.SplitLaws.{comma_joined, pairs_joined, some_pair};
ghost use Rattle.a64_tokens.specs.Splitting.{comma_tokens, comma_pairs, of_text};
ghost use Rattle.a64_tokens.specs.TokenLaws.{some_token};

use crate::call::read_made;
use crate::list::{Listed, cut_comma};
use crate::location_name::LocationName;
use crate::register_pair::read_register_pair;
use a64_base::{PReg, Writable};
use a64_inst::{CallArgPair, CallRetPair};
use a64_tokens::register::{read_preg, read_reg};
use a64_tokens::split::cut;

/// What is passed, as the token is: the register that the caller knows it by, `=`, and the one in which it
/// goes.
fn read_call_arg(token: &[u8]) -> Option<CallArgPair>
    ensures { Reads IsCallArg call_arg_text token.now result }
{
    let (vreg, preg) = read_register_pair(token)?;
    Some(CallArgPair { vreg, preg })
}

/// The result that the token is: the register that the caller knows it by, `=`, and where the function
/// leaves it.
fn read_call_ret(token: &[u8]) -> Option<CallRetPair>
    ensures { Reads IsCallRet call_ret_text token.now result }
{
    let (front, back) = cut(token, b'=');
    let back = back?;
    let vreg = read_reg(front)?;
    let location = read_made::<LocationName>(back)?;
    Some(CallRetPair {
        vreg: Writable::from_reg(vreg),
        location,
    })
}

/// The text before the second comma, and what comes after it.
fn cut_pair(text: &[u8]) -> (&[u8], Option<&[u8]>)
    ensures { comma_pairs text.now ≡ result.0.now ∷ of_text comma_pairs result.1 }
{
    let (front, more) = cut_comma(text);
    let Some(more) = more else {
        return (text, None);
    };
    let (back, rest) = cut_comma(more);
    (&text[..front.len() + 1 + back.len()], rest)
}

impl Listed for CallArgPair {
    ghost text = { call_arg_text };

    ghost fits = { IsCallArg };

    ghost tokens = { comma_tokens };

    fn cut(list: &[u8]) -> (&[u8], Option<&[u8]>) {
        cut_comma(list)
    }

    fn read(token: &[u8]) -> Option<CallArgPair> {
        read_call_arg(token)
    }

    ghost apart = { call_arg_apart };

    ghost joined = { comma_joined };

    ghost some_token = { some_token 44 };

    ghost no_dash = { call_arg_no_dash };
}

// The text of a result has a comma of its own.
impl Listed for CallRetPair {
    ghost text = { call_ret_text };

    ghost fits = { IsCallRet };

    ghost tokens = { comma_pairs };

    fn cut(list: &[u8]) -> (&[u8], Option<&[u8]>) {
        cut_pair(list)
    }

    fn read(token: &[u8]) -> Option<CallRetPair> {
        read_call_ret(token)
    }

    ghost apart = { call_ret_apart };

    ghost joined = { pairs_joined };

    ghost some_token = { some_pair };

    ghost no_dash = { call_ret_no_dash };
}

impl Listed for PReg {
    ghost text = { preg_text };

    ghost fits = { IsPReg };

    ghost tokens = { comma_tokens };

    fn cut(list: &[u8]) -> (&[u8], Option<&[u8]>) {
        cut_comma(list)
    }

    fn read(token: &[u8]) -> Option<PReg> {
        read_preg(token)
    }

    ghost apart = { preg_apart };

    ghost joined = { comma_joined };

    ghost some_token = { some_token 44 };

    ghost no_dash = { preg_no_dash };
}
