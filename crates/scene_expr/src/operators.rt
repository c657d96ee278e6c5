// The operators between values, and before them. (Reference manual, operators)
ghost use Rattle.std.specs.Prelude.{ℕ, ◌≡◌, ◌≢◌, IfErr, IfSome, IfNone, Ok, Some, None, ◌<◌, ◌≤◌, ◌+◌, ◌∷◌, [], map, neg_ℤ, if◌then◌else◌};
ghost use Rattle.scene_expr.specs.declared.value.Value.{Value};
ghost use Rattle.scene_expr.specs.Short.{tiers_in};
ghost use Rattle.scene_expr.specs.Grammar.{tier_operator, is_repeated};
ghost use Rattle.scene_expr.specs.Values.{answer, float};
ghost use Rattle.scene_expr.specs.Operators.{
  calculated,
  compares,
  connects,
  is_true,
  truth,
  repeated,
  colour_numbers,
  is_zero_divisor,
  is_range,
  number_or_zero,
  all_of,
  vector_of,
  vectors,
  colours,
  arithmetic_of,
  on_floats,
  applied,
  prefixed,
  chosen,
  sum_operator,
  term_operator,
  comparison,
  connective,
  prefix,
};

use crate::value::{Level, Trouble, Value};
use fix_math::{Fix, NumFault, V3, add, div, mul, sub};
use scene_lexer::sign;

/// A sign before a value.
#[derive(Clone, Copy)]
pub enum Prefix {
    Minus,
    Plus,
    Not,
}

#[derive(Clone, Copy)]
pub enum Arithmetic {
    Add,
    Subtract,
    Multiply,
    Divide,
}

#[derive(Clone, Copy)]
pub enum Comparison {
    Equal,
    NotEqual,
    Less,
    AtMost,
    Greater,
    AtLeast,
}

#[derive(Clone, Copy)]
pub enum Connective {
    And,
    Or,
}

/// A sign between two values.
#[derive(Clone, Copy)]
pub enum Operator {
    Arithmetic(Arithmetic),
    Comparison(Comparison),
    Connective(Connective),
}

impl Arithmetic {
    fn calculated(self, a: Fix, b: Fix) -> Result<Fix, NumFault>
        ensures { result ≡ calculated self a b }
    {
        match self {
            Arithmetic::Add => add(a, b),
            Arithmetic::Subtract => sub(a, b),
            Arithmetic::Multiply => mul(a, b),
            Arithmetic::Divide => div(a, b),
        }
    }

    fn floats(self, a: Fix, b: Fix) -> Result<Value, Trouble>
        ensures value { result ≡ float (calculated self a b) }
        ensures memory { IfErr result (λ trouble. trouble ≢ Trouble.NoMemory) }
    {
        match self.calculated(a, b) {
            Ok(number) => Ok(Value::Float(number)),
            Err(fault) => Err(Trouble::of(fault)),
        }
    }

    fn vectors(self, v: V3, w: V3) -> Result<Value, Trouble>
        ensures value { result ≡ vectors (calculated self) v w }
        ensures memory { IfErr result (λ trouble. trouble ≢ Trouble.NoMemory) }
    {
        vector_from(
            self.calculated(v.x, w.x),
            self.calculated(v.y, w.y),
            self.calculated(v.z, w.z),
        )
    }

    fn colours(self, c: &[Fix; 5], d: &[Fix; 5]) -> Result<Value, Trouble>
        ensures value { result ≡ colours (calculated self) c.now d.now }
        ensures memory { IfErr result (λ trouble. trouble ≢ Trouble.NoMemory) }
    {
        colour_from(
            self.calculated(c[0], d[0]),
            self.calculated(c[1], d[1]),
            self.calculated(c[2], d[2]),
            self.calculated(c[3], d[3]),
            self.calculated(c[4], d[4]),
        )
    }

    fn applied(self, left: Value, right: Value) -> Result<Value, Trouble>
        ensures value { result ≡ arithmetic_of (calculated self) left right }
        ensures memory { IfErr result (λ trouble. trouble ≢ Trouble.NoMemory) }
    {
        match left {
            Value::Float(a) => self.with_float(a, right),
            Value::Vector(v) => self.with_vector(v, right),
            Value::Color(c) => self.with_colour(c, right),
            Value::Text(_text) => Err(Trouble::Kind),
        }
    }

    fn with_float(self, a: Fix, right: Value) -> Result<Value, Trouble>
        ensures value { result ≡ arithmetic_of (calculated self) (Value.Float a) right }
        ensures memory { IfErr result (λ trouble. trouble ≢ Trouble.NoMemory) }
    {
        match right {
            Value::Float(b) => self.floats(a, b),
            Value::Vector(w) => self.vectors(repeated(a), w),
            Value::Color(d) => self.colours(&[a; 5], &d),
            Value::Text(_text) => Err(Trouble::Kind),
        }
    }

    fn with_vector(self, v: V3, right: Value) -> Result<Value, Trouble>
        ensures value { result ≡ arithmetic_of (calculated self) (Value.Vector v) right }
        ensures memory { IfErr result (λ trouble. trouble ≢ Trouble.NoMemory) }
    {
        match right {
            Value::Float(b) => self.vectors(v, repeated(b)),
            Value::Vector(w) => self.vectors(v, w),
            Value::Color(d) => self.colours(&colour_numbers(v), &d),
            Value::Text(_text) => Err(Trouble::Kind),
        }
    }

    fn with_colour(self, c: [Fix; 5], right: Value) -> Result<Value, Trouble>
        ensures value { result ≡ arithmetic_of (calculated self) (Value.Color c) right }
        ensures memory { IfErr result (λ trouble. trouble ≢ Trouble.NoMemory) }
    {
        match right {
            Value::Float(b) => self.colours(&c, &[b; 5]),
            Value::Vector(w) => self.colours(&c, &colour_numbers(w)),
            Value::Color(d) => self.colours(&c, &d),
            Value::Text(_text) => Err(Trouble::Kind),
        }
    }
}

/// A float for each component of a vector.
fn repeated(a: Fix) -> V3
    ensures { result ≡ repeated a }
{
    V3 { x: a, y: a, z: a }
}

/// A vector as a colour: it has no filter and no transmit.
pub fn colour_numbers(v: V3) -> [Fix; 5]
    ensures { result ≡ colour_numbers v }
{
    [v.x, v.y, v.z, Fix(0), Fix(0)]
}

fn is_zero_divisor(calculation: &Result<Fix, NumFault>) -> bool
    ensures { result ≡ is_zero_divisor calculation.now }
{
    match calculation {
        Ok(_) => false,
        Err(NumFault::ZeroDivisor) => true,
        Err(NumFault::Range) => false,
    }
}

fn is_range(calculation: &Result<Fix, NumFault>) -> bool
    ensures { result ≡ is_range calculation.now }
{
    match calculation {
        Ok(_) => false,
        Err(NumFault::ZeroDivisor) => false,
        Err(NumFault::Range) => true,
    }
}

fn number_or_zero(calculation: &Result<Fix, NumFault>) -> Fix
    ensures { result ≡ number_or_zero calculation.now }
{
    match calculation {
        Ok(number) => *number,
        Err(_) => Fix(0),
    }
}

fn vector_from(
    x: Result<Fix, NumFault>,
    y: Result<Fix, NumFault>,
    z: Result<Fix, NumFault>,
) -> Result<Value, Trouble>
    ensures value { result ≡ answer (λ numbers. Value.Vector (vector_of numbers)) (all_of (x ∷ y ∷ z ∷ [])) }
    ensures memory { IfErr result (λ trouble. trouble ≢ Trouble.NoMemory) }
{
    if is_zero_divisor(&x) || is_zero_divisor(&y) || is_zero_divisor(&z) {
        return Err(Trouble::ZeroDivisor);
    }
    if is_range(&x) || is_range(&y) || is_range(&z) {
        return Err(Trouble::Range);
    }
    Ok(Value::Vector(V3 {
        x: number_or_zero(&x),
        y: number_or_zero(&y),
        z: number_or_zero(&z),
    }))
}

fn colour_from(
    red: Result<Fix, NumFault>,
    green: Result<Fix, NumFault>,
    blue: Result<Fix, NumFault>,
    filter: Result<Fix, NumFault>,
    transmit: Result<Fix, NumFault>,
) -> Result<Value, Trouble>
    ensures value { result ≡ answer Value.Color (all_of (red ∷ green ∷ blue ∷ filter ∷ transmit ∷ [])) }
    ensures memory { IfErr result (λ trouble. trouble ≢ Trouble.NoMemory) }
{
    if is_zero_divisor(&red)
        || is_zero_divisor(&green)
        || is_zero_divisor(&blue)
        || is_zero_divisor(&filter)
        || is_zero_divisor(&transmit)
    {
        return Err(Trouble::ZeroDivisor);
    }
    if is_range(&red)
        || is_range(&green)
        || is_range(&blue)
        || is_range(&filter)
        || is_range(&transmit)
    {
        return Err(Trouble::Range);
    }
    Ok(Value::Color([
        number_or_zero(&red),
        number_or_zero(&green),
        number_or_zero(&blue),
        number_or_zero(&filter),
        number_or_zero(&transmit),
    ]))
}

impl Comparison {
    fn holds(self, a: Fix, b: Fix) -> bool
        ensures { result ≡ compares self a b }
    {
        match self {
            Comparison::Equal => a.raw() == b.raw(),
            Comparison::NotEqual => a.raw() != b.raw(),
            Comparison::Less => a.raw() < b.raw(),
            Comparison::AtMost => a.raw() <= b.raw(),
            Comparison::Greater => a.raw() > b.raw(),
            Comparison::AtLeast => a.raw() >= b.raw(),
        }
    }

    fn applied(self, left: Value, right: Value) -> Result<Value, Trouble>
        ensures value { result ≡ on_floats (λ a b. truth (compares self a b)) left right }
        ensures memory { IfErr result (λ trouble. trouble ≢ Trouble.NoMemory) }
    {
        let Value::Float(a) = left else {
            return Err(Trouble::Kind);
        };
        let Value::Float(b) = right else {
            return Err(Trouble::Kind);
        };
        Ok(truth(self.holds(a, b)))
    }
}

impl Connective {
    fn holds(self, a: bool, b: bool) -> bool
        ensures { result ≡ connects self a b }
    {
        match self {
            Connective::And => a && b,
            Connective::Or => a || b,
        }
    }

    fn applied(self, left: Value, right: Value) -> Result<Value, Trouble>
        ensures value { result ≡ on_floats (λ a b. truth (connects self (is_true a) (is_true b))) left right }
        ensures memory { IfErr result (λ trouble. trouble ≢ Trouble.NoMemory) }
    {
        let Value::Float(a) = left else {
            return Err(Trouble::Kind);
        };
        let Value::Float(b) = right else {
            return Err(Trouble::Kind);
        };
        Ok(truth(self.holds(is_true(a), is_true(b))))
    }
}

/// A number that isn't 0 stands for true.
fn is_true(a: Fix) -> bool
    ensures { result ≡ is_true a }
{
    a.raw() != 0
}

fn truth_number(holds: bool) -> Fix
    ensures { Value.Float result ≡ truth holds }
{
    if holds { Fix(65536) } else { Fix(0) }
}

fn truth(holds: bool) -> Value
    ensures { result ≡ truth holds }
{
    Value::Float(truth_number(holds))
}

impl Operator {
    /// What the operator makes of two numbers; none where it is at fault.
    pub fn of_numbers(self, a: Fix, b: Fix) -> Option<Fix>
        ensures { IfSome result (λ number. applied self (Value.Float a) (Value.Float b) ≡ Ok (Value.Float number)) }
    {
        match self {
            Operator::Arithmetic(one) => match one.calculated(a, b) {
                Ok(number) => Some(number),
                Err(_fault) => None,
            },
            Operator::Comparison(one) => Some(truth_number(one.holds(a, b))),
            Operator::Connective(one) => Some(truth_number(one.holds(is_true(a), is_true(b)))),
        }
    }
}

/// What an operator makes of its two sides.
pub fn applied(operator: Operator, left: Value, right: Value) -> Result<Value, Trouble>
    ensures value { result ≡ applied operator left right }
    ensures memory { IfErr result (λ trouble. trouble ≢ Trouble.NoMemory) }
{
    match operator {
        Operator::Arithmetic(one) => one.applied(left, right),
        Operator::Comparison(one) => one.applied(left, right),
        Operator::Connective(one) => one.applied(left, right),
    }
}

/// What a sign makes of the value behind it.
pub fn prefixed(sign: Prefix, value: Value) -> Result<Value, Trouble>
    ensures value { result ≡ prefixed sign value }
    ensures memory { IfErr result (λ trouble. trouble ≢ Trouble.NoMemory) }
{
    match sign {
        Prefix::Minus => negated(value),
        Prefix::Plus => kept(value),
        Prefix::Not => denied(value),
    }
}

fn negated(value: Value) -> Result<Value, Trouble>
    ensures value { result ≡ prefixed Prefix.Minus value }
    ensures memory { IfErr result (λ trouble. trouble ≢ Trouble.NoMemory) }
{
    match value {
        Value::Float(a) => Ok(Value::Float(a.negated())),
        Value::Vector(v) => Ok(Value::Vector(V3 {
            x: v.x.negated(),
            y: v.y.negated(),
            z: v.z.negated(),
        })),
        Value::Color(c) => Ok(Value::Color(negated_numbers(&c))),
        Value::Text(_text) => Err(Trouble::Kind),
    }
}

fn negated_numbers(c: &[Fix; 5]) -> [Fix; 5]
    ensures { result ≡ map neg_ℤ c.now }
{
    [
        c[0].negated(),
        c[1].negated(),
        c[2].negated(),
        c[3].negated(),
        c[4].negated(),
    ]
}

fn kept(value: Value) -> Result<Value, Trouble>
    ensures value { result ≡ prefixed Prefix.Plus value }
    ensures memory { IfErr result (λ trouble. trouble ≢ Trouble.NoMemory) }
{
    match value {
        Value::Float(a) => Ok(Value::Float(a)),
        Value::Vector(v) => Ok(Value::Vector(v)),
        Value::Color(c) => Ok(Value::Color(c)),
        Value::Text(_text) => Err(Trouble::Kind),
    }
}

fn denied(value: Value) -> Result<Value, Trouble>
    ensures value { result ≡ prefixed Prefix.Not value }
    ensures memory { IfErr result (λ trouble. trouble ≢ Trouble.NoMemory) }
{
    match value {
        Value::Float(a) => Ok(truth(!is_true(a))),
        Value::Vector(_) => Err(Trouble::Kind),
        Value::Color(_) => Err(Trouble::Kind),
        Value::Text(_text) => Err(Trouble::Kind),
    }
}

/// The second or the third part of a choice.
pub fn chosen(condition: Value, first: Value, second: Value) -> Result<Value, Trouble>
    ensures value { result ≡ chosen condition first second }
    ensures memory { IfErr result (λ trouble. trouble ≢ Trouble.NoMemory) }
{
    match condition {
        Value::Float(a) => { if is_true(a) { Ok(first) } else { Ok(second) } }
        Value::Vector(_) => Err(Trouble::Kind),
        Value::Color(_) => Err(Trouble::Kind),
        Value::Text(_text) => Err(Trouble::Kind),
    }
}

fn sum_operator(code: u8) -> Option<Operator>
    ensures { result ≡ sum_operator code }
{
    if code == sign::PLUS {
        Some(Operator::Arithmetic(Arithmetic::Add))
    } else if code == sign::MINUS {
        Some(Operator::Arithmetic(Arithmetic::Subtract))
    } else {
        None
    }
}

fn term_operator(code: u8) -> Option<Operator>
    ensures { result ≡ term_operator code }
{
    if code == sign::TIMES {
        Some(Operator::Arithmetic(Arithmetic::Multiply))
    } else if code == sign::OVER {
        Some(Operator::Arithmetic(Arithmetic::Divide))
    } else {
        None
    }
}

fn comparison_operator(code: u8) -> Option<Operator>
    ensures { result ≡ comparison code }
{
    if code == sign::EQUAL {
        Some(Operator::Comparison(Comparison::Equal))
    } else if code == sign::NOT_EQUAL {
        Some(Operator::Comparison(Comparison::NotEqual))
    } else if code == sign::LESS {
        Some(Operator::Comparison(Comparison::Less))
    } else if code == sign::AT_MOST {
        Some(Operator::Comparison(Comparison::AtMost))
    } else if code == sign::GREATER {
        Some(Operator::Comparison(Comparison::Greater))
    } else if code == sign::AT_LEAST {
        Some(Operator::Comparison(Comparison::AtLeast))
    } else {
        None
    }
}

fn connective_operator(code: u8) -> Option<Operator>
    ensures { result ≡ connective code }
{
    if code == sign::AND {
        Some(Operator::Connective(Connective::And))
    } else if code == sign::OR {
        Some(Operator::Connective(Connective::Or))
    } else {
        None
    }
}

/// The tiers of operators from tight to loose are products, sums, comparisons and connections.
const COMPARISONS: usize = 2;

/// The operator of a tier that the sign is.
pub fn tier_operator(tier: usize, code: u8) -> Option<Operator>
    requires { tier < 4 }
    ensures { result ≡ tier_operator tier code }
{
    match tier {
        0 => term_operator(code),
        1 => sum_operator(code),
        2 => comparison_operator(code),
        _ => connective_operator(code),
    }
}

/// An operator and its tier.
#[derive(Clone, Copy)]
pub struct Tiered {
    pub tier: usize,
    pub operator: Operator,
}

/// The comparison or connective that the sign is.
#[inline(always)]
fn loose(code: u8) -> Option<Tiered>
    ensures found { IfSome result (λ found. (found.tier < 4) × (tier_operator found.tier code ≡ Some found.operator) × ((tier : ℕ) → tier < found.tier → 2 ≤ tier → tier_operator tier code ≡ None)) }
    ensures none { IfNone result ((tier : ℕ) → tier < 4 → 2 ≤ tier → tier_operator tier code ≡ None) }
{
    if let Some(operator) = comparison_operator(code) {
        return Some(Tiered { tier: 2, operator });
    }
    match connective_operator(code) {
        Some(operator) => Some(Tiered { tier: 3, operator }),
        None => None,
    }
}

/// The operator of a level that the sign is.
#[inline(always)]
pub fn operator_in(level: Level, code: u8) -> Option<Tiered>
    ensures found { IfSome result (λ found. (found.tier < tiers_in level) × (tier_operator found.tier code ≡ Some found.operator) × ((tier : ℕ) → tier < found.tier → tier_operator tier code ≡ None)) }
    ensures none { IfNone result ((tier : ℕ) → tier < tiers_in level → tier_operator tier code ≡ None) }
{
    if let Some(operator) = term_operator(code) {
        return Some(Tiered { tier: 0, operator });
    }
    if let Some(operator) = sum_operator(code) {
        return Some(Tiered { tier: 1, operator });
    }
    match level {
        Level::Choice => loose(code),
        Level::Sum => None,
    }
}

/// The tier whose operators may stand behind an operator of this tier: a comparison isn't compared again.
pub fn tier_behind(tier: usize) -> usize
    requires { tier < 4 }
    ensures { result ≡ (if is_repeated tier then tier else tier + 1) }
{
    if tier == COMPARISONS { tier + 1 } else { tier }
}

pub fn prefix_of(code: u8) -> Option<Prefix>
    ensures { result ≡ prefix code }
{
    if code == sign::MINUS {
        Some(Prefix::Minus)
    } else if code == sign::PLUS {
        Some(Prefix::Plus)
    } else if code == sign::NOT {
        Some(Prefix::Not)
    } else {
        None
    }
}
