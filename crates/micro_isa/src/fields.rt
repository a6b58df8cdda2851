//! The fields of a word: what an instruction's operands are among its bytes.

ghost use Rattle.std.specs.Prelude.{◌≡◌, ◌<◌};
ghost use Rattle.micro_isa.specs.WordBytes.{small_field, wide_field, wide_limit, fields_of, with_field, operands_from};

use crate::image::PReg;
use crate::operands::{Extra, Operands};
use crate::operation::Role;

/// The three small fields, and the wide one, which holds a number, a target or a channel.
#[derive(Clone, Copy, Debug, PartialEq, Eq)]
pub(crate) struct Fields {
    pub d: u8,
    pub a: u8,
    pub b: u8,
    pub wide: u32,
}

/// The fields of operands; one that is not there is 0.
#[inline(always)]
pub(crate) fn fields_of(operands: Operands<PReg, u32, u8>) -> Fields
    ensures all { result ≡ fields_of operands }
    ensures fits { result.wide < wide_limit operands.extra }
{
    Fields {
        d: small_field(operands.to),
        a: small_field(operands.a),
        b: small_field(operands.b),
        wide: wide_field(operands.extra),
    }
}

#[inline(always)]
fn small_field(register: Option<PReg>) -> u8
    ensures { result ≡ small_field register }
{
    match register {
        Some(register) => register.0,
        None => 0,
    }
}

#[inline(always)]
fn wide_field(extra: Extra<u32, u8>) -> u32
    ensures all { result ≡ wide_field extra }
    ensures fits { result < wide_limit extra }
{
    match extra {
        Extra::Nothing => 0,
        Extra::Number(n) | Extra::Target(n) => n,
        Extra::Receive(channel) | Extra::Send(channel) => u32::from(channel),
    }
}

/// The operands of these roles that the fields hold.
#[inline(always)]
pub(crate) fn operands_from(fields: Fields, roles: &[Role]) -> Operands<PReg, u32, u8>
    ensures { result ≡ operands_from fields roles.now }
{
    let mut operands = Operands {
        to: None,
        a: None,
        b: None,
        extra: Extra::Nothing,
    };
    for role in roles {
        operands = with_field(fields, operands, *role);
    }
    operands
}

#[inline(always)]
fn with_field(
    fields: Fields,
    operands: Operands<PReg, u32, u8>,
    role: Role,
) -> Operands<PReg, u32, u8>
    ensures { result ≡ with_field fields operands role }
{
    match role {
        Role::To => Operands {
            to: Some(PReg(fields.d)),
            ..operands
        },
        Role::A => Operands {
            a: Some(PReg(fields.a)),
            ..operands
        },
        Role::B => Operands {
            b: Some(PReg(fields.b)),
            ..operands
        },
        Role::Number => Operands {
            extra: Extra::Number(fields.wide),
            ..operands
        },
        Role::Target => Operands {
            extra: Extra::Target(fields.wide),
            ..operands
        },
        Role::Receive => Operands {
            extra: Extra::Receive((fields.wide % 256) as u8),
            ..operands
        },
        Role::Send => Operands {
            extra: Extra::Send((fields.wide % 256) as u8),
            ..operands
        },
    }
}
