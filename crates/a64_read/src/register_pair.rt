//! Reads registers in which values enter and leave functions.

ghost use Rattle.std.specs.Prelude.{◌≡◌, ◌∷◌};
ghost use Rattle.a64_tokens.specs.Reads.{Reads};
ghost use Rattle.a64_read.specs.RegisterPairs.{register_pair_text, IsRegisterPair, arg_pair_text, IsArgPair, ret_pair_text, IsRetPair};
ghost use Rattle.a64_tokens.specs.SplitLaws.{comma_joined};
ghost use Rattle.a64_tokens.specs.Splitting.{comma_tokens, of_text};
ghost use Rattle.a64_tokens.specs.TokenLaws.{some_token};
ghost use Rattle.a64_read.specs.PairLaws.{arg_apart, arg_no_dash, ret_apart, ret_no_dash};

use crate::list::{Listed, cut_comma};
use a64_base::{Reg, Writable};
use a64_inst::{ArgPair, RetPair};
use a64_tokens::register::read_reg;
use a64_tokens::split::cut;

/// The two registers that the token is, with `=` between.
pub fn read_register_pair(token: &[u8]) -> Option<(Reg, Reg)>
    ensures { Reads IsRegisterPair register_pair_text token.now result }
{
    let (front, back) = cut(token, b'=');
    let back = back?;
    Some((read_reg(front)?, read_reg(back)?))
}

/// The argument that the token is: the register that the function knows it by, `=`, and the one in which
/// it comes.
fn read_arg_pair(token: &[u8]) -> Option<ArgPair>
    ensures { Reads IsArgPair arg_pair_text token.now result }
{
    let (vreg, preg) = read_register_pair(token)?;
    Some(ArgPair {
        vreg: Writable::from_reg(vreg),
        preg,
    })
}

/// The result that the token is: the register that the function knows it by, `=`, and the one in which it
/// goes.
fn read_ret_pair(token: &[u8]) -> Option<RetPair>
    ensures { Reads IsRetPair ret_pair_text token.now result }
{
    let (vreg, preg) = read_register_pair(token)?;
    Some(RetPair { vreg, preg })
}

impl Listed for ArgPair {
    ghost text = { arg_pair_text };

    ghost fits = { IsArgPair };

    ghost tokens = { comma_tokens };

    fn cut(list: &[u8]) -> (&[u8], Option<&[u8]>) {
        cut_comma(list)
    }

    fn read(token: &[u8]) -> Option<ArgPair> {
        read_arg_pair(token)
    }

    ghost apart = { arg_apart };

    ghost joined = { comma_joined };

    ghost some_token = { some_token 44 };

    ghost no_dash = { arg_no_dash };
}

impl Listed for RetPair {
    ghost text = { ret_pair_text };

    ghost fits = { IsRetPair };

    ghost tokens = { comma_tokens };

    fn cut(list: &[u8]) -> (&[u8], Option<&[u8]>) {
        cut_comma(list)
    }

    fn read(token: &[u8]) -> Option<RetPair> {
        read_ret_pair(token)
    }

    ghost apart = { ret_apart };

    ghost joined = { comma_joined };

    ghost some_token = { some_token 44 };

    ghost no_dash = { ret_no_dash };
}
