use crate::expected::transition_faults;
use std::test::Fail;

const ENDS_EARLY: [(&[u8], usize); 16] = [
    (b"", 0),
    (b" ", 1),
    (b"     ", 5),
    (b"f0", 2),
    (b"5 ", 2),
    (b"f0 <", 4),
    (b"f0 < ", 5),
    (b"not", 3),
    (b"not not ", 8),
    (b"true and", 8),
    (b"true or ", 8),
    (b"(", 1),
    (b"(f0<1", 5),
    (b"(true ", 6),
    (b"((true)", 7),
    (b"(true and", 9),
];

const NO_FACTOR: [(&[u8], usize); 24] = [
    (b"and true", 0),
    (b"or true", 0),
    (b"< 1", 0),
    (b")", 0),
    (b"  ) true", 2),
    (b"L0", 0),
    (b"L0 = 1", 0),
    (b"()", 1),
    (b"( )", 2),
    (b"(and true)", 1),
    (b"(L0)", 1),
    (b"not and", 4),
    (b"not or", 4),
    (b"not )", 4),
    (b"not = 1", 4),
    (b"not L0", 4),
    (b"(not)", 4),
    (b"true and and true", 9),
    (b"true and or true", 9),
    (b"true or and true", 8),
    (b"true or or true", 8),
    (b"true or )", 8),
    (b"(true or)", 8),
    (b"true and < 1", 9),
];

const NO_SIGN: [(&[u8], usize); 11] = [
    (b"f0 5", 3),
    (b"f0 f1", 3),
    (b"5 f0", 2),
    (b"5-3 < 1", 1),
    (b"f0 true", 3),
    (b"f0 not", 3),
    (b"f0 and true", 3),
    (b"f0 or true", 3),
    (b"f0 (1)", 3),
    (b"(f0) = 5", 3),
    (b"f0 L0", 3),
];

const NO_OPERAND: [(&[u8], usize); 14] = [
    (b"f0 < < 1", 5),
    (b"f0 < true", 5),
    (b"f0 < not", 5),
    (b"f0 < and", 5),
    (b"f0 < or", 5),
    (b"f0 < (1)", 5),
    (b"(f0 < )", 6),
    (b"f0 < L0", 5),
    (b"5=<3", 2),
    (b"5==5", 2),
    (b"5<>5", 2),
    (b"5 < = 3", 4),
    (b"5!==5", 3),
    (b"5>=>5", 3),
];

const AFTER_FACTOR: [(&[u8], usize); 20] = [
    (b"f0 < 1 < 2", 7),
    (b"f0 < 1 2", 7),
    (b"f0 < 1 f0", 7),
    (b"f0 < 1 true", 7),
    (b"f0 < 1 not true", 7),
    (b"f0 < 1 (true)", 7),
    (b"f0 < 1 )", 7),
    (b"f0 < 1 L0", 7),
    (b"true true", 5),
    (b"true false", 5),
    (b"true not true", 5),
    (b"true (true)", 5),
    (b"true)", 4),
    (b"true = true", 5),
    (b"true 1", 5),
    (b"true L0", 5),
    (b"(true) (true)", 7),
    (b"(true)true", 6),
    (b"(true))", 6),
    (b"(f0 < 1 2)", 8),
];

const BAD_WORDS: [(&[u8], usize); 28] = [
    (b"nottrue", 0),
    (b"trueand true", 0),
    (b"true andtrue", 5),
    (b"TRUE", 0),
    (b"False", 0),
    (b"NOT true", 0),
    (b"true AND true", 5),
    (b"truea", 0),
    (b"truez", 0),
    (b"trueA", 0),
    (b"trueZ", 0),
    (b"true0", 0),
    (b"true9", 0),
    (b"tru", 0),
    (b"x", 0),
    (b"f0 x 1", 3),
    (b"f0 < x", 5),
    (b"f0 < 1 x", 7),
    (b"f8 < 1", 0),
    (b"1 < f8", 4),
    (b"F0 < 1", 0),
    (b"f < 1", 0),
    (b"f00 < 1", 0),
    (b"f10 < 1", 0),
    (b"f0x < 1", 0),
    (b"f 0 < 1", 0),
    (b"f0<6and true", 3),
    (b"0x1 < 1", 0),
];

const BAD_NUMBERS: [(&[u8], usize); 24] = [
    (b"-0 < 1", 0),
    (b"1 < -0", 4),
    (b"00 < 1", 0),
    (b"05 < 1", 0),
    (b"1 < 01", 4),
    (b"-05 < 1", 0),
    (b"1000000000000 < 1", 0),
    (b"1 < 1000000000000", 4),
    (b"-1000000000000 < 1", 0),
    (b"0000000000001 < 1", 0),
    (b"18446744073709551621 = f0", 0),
    (b"-", 0),
    (b"- 5 < 1", 0),
    (b"--5 < 1", 0),
    (b"5<--3", 2),
    (b"5 - 3 < 1", 2),
    (b"5<- 3", 2),
    (b"-(5) < 1", 0),
    (b"-f0 < 1", 0),
    (b"-true", 0),
    (b"true-true", 4),
    (b"5<-f0", 2),
    (b"+5 < 1", 0),
    (b"5.0 < 1", 1),
];

const BAD_BYTES: [(&[u8], usize); 32] = [
    (b"true #", 5),
    (b"#", 0),
    (b"# true", 0),
    (b"true\t", 4),
    (b"\ttrue", 0),
    (b"true\n", 4),
    (b"\ntrue", 0),
    (b"true\r\n", 4),
    (b"true\x00", 4),
    (b"\x00", 0),
    (b"true \xff", 5),
    (b"\xfftrue", 0),
    (b"f0\xa0<1", 2),
    (b"f0 \xe2\x89\xa4 1", 3),
    (b"true\x1f", 4),
    (b"true/", 4),
    (b"true:", 4),
    (b"true@", 4),
    (b"true[", 4),
    (b"true`", 4),
    (b"true{", 4),
    (b"true\x7f", 4),
    (b"true'", 4),
    (b"true*", 4),
    (b"true, true", 4),
    (b"true.", 4),
    (b"true && true", 5),
    (b"true;", 4),
    (b"f0?1", 2),
    (b"!true", 0),
    (b"5 ! = 3", 2),
    (b"f0 < 1_0", 6),
];

#[test]
fn faults_at_symbols(rt: HostRuntime) -> Result<(), Fail> {
    transition_faults(&rt, &NO_FACTOR)?;
    transition_faults(&rt, &NO_SIGN)?;
    transition_faults(&rt, &NO_OPERAND)?;
    transition_faults(&rt, &AFTER_FACTOR)
}

#[test]
fn faults_at_bad_tokens(rt: HostRuntime) -> Result<(), Fail> {
    transition_faults(&rt, &BAD_WORDS)?;
    transition_faults(&rt, &BAD_NUMBERS)?;
    transition_faults(&rt, &BAD_BYTES)
}

#[test]
fn faults_at_the_end(rt: HostRuntime) -> Result<(), Fail> {
    transition_faults(&rt, &ENDS_EARLY)
}
