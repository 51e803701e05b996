#![tactic(auto)]

ghost use Rattle.std.specs.Prelude.{◌≡◌, ◌≤◌, ◌+ℤ◌, ◌-ℤ◌, ◌*ℤ◌};
ghost use Rattle.std.specs.Int.Signed.{lt_z, le_z};
ghost use Rattle.meaning.specs.Value.{nonzero, bit, compares, equal};
ghost use Rattle.meaning.specs.Arithmetic.{divide, remainder, floored_divide, floored_remainder, are_opposite, apply_numbers};
ghost use Rattle.arithmetic.specs.Coded.{coded};
ghost use Rattle.nodes.specs.Bounded.{in_bound, Small, no_value, bounded, evaluated, operator_at, applied_by_kind};

use nodes::Evaluated;

// "Magnitudes to 1,000,000,000."
pub fn in_bound(z: i64) -> bool
    ensures { result ≡ in_bound z }
{
    -1000000000 <= z && z <= 1000000000
}

fn no_value() -> Evaluated
    ensures { result ≡ no_value }
{
    Evaluated {
        ok: false,
        value: 0,
    }
}

// The value itself, where it is within the bound.
fn bounded(z: i64) -> Evaluated
    ensures { result ≡ bounded z }
{
    if in_bound(z) {
        Evaluated { ok: true, value: z }
    } else {
        no_value()
    }
}

// The number that stands for no value.
pub fn no_value_coded() -> i64
    ensures { result ≡ coded no_value }
{
    2000000000
}

// The value itself, where it is within the bound, as one number.
pub fn bounded_coded(z: i64) -> i64
    ensures { result ≡ coded (bounded z) }
{
    if in_bound(z) { z } else { no_value_coded() }
}

// "any value but 0 is true"
pub fn nonzero(z: i64) -> bool
    ensures { result ≡ nonzero z }
{
    z != 0
}

// "The word comparisons, `and`, `or`, `not` give 0 or 1"
pub fn bit(b: bool) -> i64
    ensures { result ≡ bit b }
{
    i64::from(b)
}

// "A quotient is cut toward zero": −7 / 2 is −3. By 0 there is none.
fn quotient(a: i64, b: i64) -> i64
    requires { Small a × Small b }
    ensures { result ≡ coded (evaluated (apply_numbers divide a b)) }
{
    if b == 0 { no_value_coded() } else { a / b }
}

// "the remainder has the dividend's sign": −7 % 2 is −1. By 0 there is none.
fn remainder(a: i64, b: i64) -> i64
    requires { Small a × Small b }
    ensures { result ≡ coded (evaluated (apply_numbers remainder a b)) }
{
    if b == 0 { no_value_coded() } else { a % b }
}

// One number is below 0 and the other above it.
fn are_opposite(a: i64, b: i64) -> bool
    ensures { result ≡ are_opposite a b }
{
    (a < 0 && 0 < b) || (b < 0 && 0 < a)
}

// "quotients rounded down": −7 / 2 is −4. By 0 there is none.
fn floored_quotient(a: i64, b: i64) -> i64
    requires { Small a × Small b }
    ensures { result ≡ coded (evaluated (apply_numbers floored_divide a b)) }
{
    if b == 0 {
        return no_value_coded();
    }
    if are_opposite(a % b, b) {
        return a / b - 1;
    }
    a / b
}

// "the remainder having the divisor's sign": −7 % 2 is 1. By 0 there is none.
fn floored_remainder(a: i64, b: i64) -> i64
    requires { Small a × Small b }
    ensures { result ≡ coded (evaluated (apply_numbers floored_remainder a b)) }
{
    if b == 0 {
        return no_value_coded();
    }
    if are_opposite(a % b, b) {
        return a % b + b;
    }
    a % b
}

pub fn less(a: i64, b: i64) -> bool
    ensures { result ≡ lt_z a b }
{
    a < b
}

pub fn at_most(a: i64, b: i64) -> bool
    ensures { result ≡ le_z a b }
{
    a <= b
}

pub fn same(a: i64, b: i64) -> bool
    ensures { result ≡ compares equal a b }
{
    a == b
}

// The operators by a node's kind, from 7 on in the order of document 01, then those of release 2; every later kind is taken as the last. Only the
// results of `+ - *` are tested, since the others are none or within the bound where the operands are.
fn applied(kind: u8, a: i64, b: i64) -> i64
    requires { (7 ≤ kind) × Small a × Small b }
    ensures { result ≡ coded (evaluated (apply_numbers (operator_at kind) a b)) }
{
    match kind {
        nodes::ADD_NODE => bounded_coded(a + b),
        nodes::SUBTRACT_NODE => bounded_coded(a - b),
        nodes::MULTIPLY_NODE => bounded_coded(a * b),
        nodes::DIVIDE_NODE => quotient(a, b),
        nodes::REMAINDER_NODE => remainder(a, b),
        nodes::LESS_NODE => bit(a < b),
        nodes::AT_MOST_NODE => bit(a <= b),
        nodes::EQUAL_NODE => bit(a == b),
        nodes::AT_LEAST_NODE => bit(b <= a),
        nodes::GREATER_NODE => bit(b < a),
        nodes::DIFFERENT_NODE => bit(a != b),
        nodes::AND_NODE => bit(nonzero(a) && nonzero(b)),
        nodes::OR_NODE => bit(nonzero(a) || nonzero(b)),
        nodes::FLOORED_DIVIDE_NODE => floored_quotient(a, b),
        _ => floored_remainder(a, b),
    }
}

// What the operator with a node's kind gives, where both operands and the result are within the bound, as one number.
pub fn apply_coded(kind: u8, a: i64, b: i64) -> i64
    ensures { result ≡ coded (applied_by_kind kind a b) }
{
    if nodes::ADD_NODE <= kind
        && kind <= nodes::FLOORED_REMAINDER_NODE
        && in_bound(a)
        && in_bound(b)
    {
        applied(kind, a, b)
    } else {
        no_value_coded()
    }
}

// What the operator with a node's kind gives, where both operands and the result are within the bound.
pub fn apply(kind: u8, a: i64, b: i64) -> Evaluated
    ensures { result ≡ applied_by_kind kind a b }
{
    bounded(apply_coded(kind, a, b))
}
