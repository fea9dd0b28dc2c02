use crate::expected::transition_values;
use std::test::Fail;

/// Each sign between a smaller, an equal and a greater number.
const SIGNS: [(&[u8], bool); 18] = [
    (b"4<5", true),
    (b"5<5", false),
    (b"6<5", false),
    (b"4<=5", true),
    (b"5<=5", true),
    (b"6<=5", false),
    (b"4=5", false),
    (b"5=5", true),
    (b"6=5", false),
    (b"4!=5", true),
    (b"5!=5", false),
    (b"6!=5", true),
    (b"4>=5", false),
    (b"5>=5", true),
    (b"6>=5", true),
    (b"4>5", false),
    (b"5>5", false),
    (b"6>5", true),
];

const OPERANDS: [(&[u8], bool); 23] = [
    (b"f0 = 5", true),
    (b"5 = f0", true),
    (b"f0 != f0", false),
    (b"f0<=-1", false),
    (b"f0>-1", true),
    (b"f0=-5", false),
    (b"f2 = -7", true),
    (b"f2 = 7", false),
    (b"f2 < -6", true),
    (b"-6 < f2", false),
    (b"f2 < f0", true),
    (b"f0 < f2", false),
    (b"f3 = 0", true),
    (b"0 <= f3", true),
    (b"f7 > f0", true),
    (b"f7 = 12", true),
    (b"100 > 99", true),
    (b"-10 < -9", true),
    (b"f4 = 999999999999", true),
    (b"f5 = -999999999999", true),
    (b"f5 < f4", true),
    (b"999999999999 > 999999999998", true),
    (b"  f0   <   6  ", true),
];

const BLANKS: [(&[u8], bool); 21] = [
    (b"f1 < 5", false),
    (b"f1 <= 5", false),
    (b"f1 = 5", false),
    (b"f1 != 5", false),
    (b"f1 >= 5", false),
    (b"f1 > 5", false),
    (b"5 < f6", false),
    (b"5 <= f6", false),
    (b"5 = f6", false),
    (b"5 != f6", false),
    (b"5 >= f6", false),
    (b"5 > f6", false),
    (b"f1 = f1", false),
    (b"f1 != f6", false),
    (b"f1 <= f6", false),
    (b"f6 = 0", false),
    (b"f0 != f1", false),
    (b"not f1 < 5", true),
    (b"not f1 = f1", true),
    (b"f1 != 5 or f0 = 5", true),
    (b"not (f1 >= 5) and not 5 > f6", true),
];

const CONNECTIVES: [(&[u8], bool); 29] = [
    (b"true", true),
    (b"false", false),
    (b"(true)", true),
    (b" ( false ) ", false),
    (b"not true", false),
    (b"not(false)", true),
    (b"not not true", true),
    (b"not not not true", false),
    (b"true and true", true),
    (b"true and false", false),
    (b"false or false", false),
    (b"false or true", true),
    (b"true or false and false", true),
    (b"true or true and false", true),
    (b"false and false or true", true),
    (b"(true or true) and false", false),
    (b"false and (false or true)", false),
    (b"not true or true", true),
    (b"not (true or true)", false),
    (b"not false and false", false),
    (b"not (false and false)", true),
    (b"not f0 = 4", true),
    (b"not f0 = 5", false),
    (b"f0 = 5 and f2 = -7 or false", true),
    (b"f0 < 6 and(f0>4)or(false)", true),
    (b"(true)and(false)", false),
    (b"((f0 < 6))", true),
    (b"true and true and true and false", false),
    (b"false or false or false or true", true),
];

#[test]
fn comparisons(rt: HostRuntime) -> Result<(), Fail> {
    transition_values(&rt, &SIGNS)?;
    transition_values(&rt, &OPERANDS)
}

#[test]
fn blanks_and_connectives(rt: HostRuntime) -> Result<(), Fail> {
    transition_values(&rt, &BLANKS)?;
    transition_values(&rt, &CONNECTIVES)
}
