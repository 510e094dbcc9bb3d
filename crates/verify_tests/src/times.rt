// A row of `TIMES` is a text, ` = ` and its nanoseconds, which python's `fractions` computed from the grammar of JSON's
// numbers. A row of `CLAIMS` has claims, the same without their times, and the time itself.
use crate::checks::{good, same_bytes, same_text, some};
use std::alloc::Global;
use std::process::Abort;
use token_time::{nanoseconds, not_before, quiet};

const TIMES: &str = "1.6e9 = 1600000000000000000
1600000000 = 1600000000000000000
1600000000.5 = 1600000000500000000
-0 = 0
0 = 0
0.0 = 0
-0.0e0 = 0
1e2147483647 = none
1e-2147483648 = none
0e999999999999 = none
0e2147483647 = 0
0e-2147483648 = 0
0e2147483648 = none
0e-2147483649 = none
-377705116800 = -377705116800000000000
-377705116800.0 = -377705116800000000000
-377705116800.000000001 = none
-377705116801 = none
-3777051168e2 = -377705116800000000000
253402300799 = 253402300799000000000
253402300799.999999999 = 253402300799999999999
253402300799.9999999990 = 253402300799999999999
253402300799.9999999991 = none
253402300800 = none
2534023008e2 = none
1e-9 = 1
1e-10 = none
10e-10 = 1
-1e-9 = -1
0.000000001 = 1
0.00000000100e0 = 1
0.0000000001e1 = 1
0.0000000001 = none
1E+9 = 1000000000000000000
1e+09 = 1000000000000000000
1e009 = 1000000000000000000
16e8 = 1600000000000000000
160000000000e-2 = 1600000000000000000
160000000001e-2 = 1600000000010000000
1600000000010e-11 = none
1000000000000000000000000000000000000e-27 = 1000000000000000000
1000000000000000000000000000000000001e-27 = none
0.0000000000000000000000016e33 = 1600000000000000000
123456789.123456789 = 123456789123456789
123456789.1234567891 = none
99999999999999999999999999999999999999999999 = none
1e11 = 100000000000000000000
1e12 = none
9e11 = none
-3e11 = -300000000000000000000
-4e11 = none
0.1e-8 = 1
000 = none
01 = none
-01 = none
1. = none
.5 = none
-.5 = none
1e = none
1e+ = none
1e- = none
+1 = none
- = none
-- = none
--1 = none
1x = none
1e1x = none
1.5.5 = none
1e1.0 = none
0x10 = none
1e1e1 = none
e9 = none
. = none
1e+-1 = none
null = none
\"1\" = none
[1] = none
1,2 = none
1e00000000000000000000000000000000000002147483648 = none
1e0000000000000000000000000000000000000000002 = 100000000000
0.000e-2147483648 = 0
1_0 = none
١ = none
 = none
 1 = none
1  = none";

const CLAIMS: &str = "{\"nbf\":1.5,\"a\":2.5} = {\"nbf\":0,\"a\":2.5} = 1500000000
{\"nbf\":1600000000} = {\"nbf\":0} = 1600000000000000000
{\"nbf\":1,\"nbf\":-2} = {\"nbf\":0,\"nbf\":0} = broken
{\"nbf\":1,\"a\":1,\"\\u006ebf\":null} = {\"nbf\":0,\"a\":1,\"\\u006ebf\":null} = broken
{ \"\\u006ebf\" : 1e9 , \"exp\":3} = { \"\\u006ebf\" : 0 , \"exp\":3} = 1000000000000000000
{\"exp\":3,\"nbf\":-0} = {\"exp\":3,\"nbf\":0} = 0
{\"nbf\":null} = {\"nbf\":null} = broken
{\"nbf\":\"1\"} = {\"nbf\":\"1\"} = broken
{\"nbf\":[1.5]} = {\"nbf\":[1.5]} = broken
{\"nbf\":-x ,\"b\":1} = {\"nbf\":0 ,\"b\":1} = broken
{\"nbf\":1 2} = {\"nbf\":0} = broken
{\"a\":{\"nbf\":1.5},\"b\":\"nbf\"} = {\"a\":{\"nbf\":1.5},\"b\":\"nbf\"} = none
{\"NBF\":1.5} = {\"NBF\":1.5} = none
{\"nbf\":1.5}x = {\"nbf\":1.5}x = none
[\"nbf\",1.5] = [\"nbf\",1.5] = none
{} = {} = none";

fn text_of(rt: &impl Abort, alloc: Global, time: Option<i128>) -> String {
    match time {
        Some(time) => good(rt, "memory", format!(in alloc; "{time}")),
        None => good(rt, "memory", String::from_str(alloc, "none")),
    }
}

#[test]
fn times(rt: HostRuntime) {
    let alloc = rt.alloc();
    for row in TIMES.lines() {
        let (text, wanted) = some(&rt, "an answer", row.split_once(" = "));
        let found = text_of(&rt, alloc, nanoseconds(text.as_bytes()));
        same_text(&rt, text, found.as_str(), wanted);
    }
}

#[test]
fn claims(rt: HostRuntime) {
    let alloc = rt.alloc();
    for row in CLAIMS.lines() {
        let (claims, rest) = some(&rt, "an answer", row.split_once(" = "));
        let (wanted, time) = some(&rt, "a time", rest.split_once(" = "));
        let found = good(&rt, "memory", quiet(alloc, claims.as_bytes()));
        same_bytes(&rt, claims, found.as_slice(), wanted.as_bytes());
        let found = match good(&rt, "memory", not_before(alloc, claims.as_bytes())) {
            Some(time) => text_of(&rt, alloc, time),
            None => good(&rt, "memory", String::from_str(alloc, "broken")),
        };
        same_text(&rt, claims, found.as_str(), time);
    }
}
