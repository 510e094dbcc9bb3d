//! The next request of a script, or its ending.
ghost use Rattle.std.specs.Prelude.{◌≡◌, ◌≢◌, ◌≤◌, ◌<◌, ◌++◌, ℕ, List, length, slice_index, true, false, IfOk, IfSome, Err, None, OnOk, ◌⊎◌};
ghost use Rattle.std.specs.Io.KnownBytes.{Keeps, IsAtEnd, prepend_known};
ghost use Rattle.identity_io.specs.Causes.{Rose};
ghost use Rattle.tool_script.specs.Request.{NoEnd};
ghost use Rattle.tool_script.specs.Script.{EndsAs, Starts};
ghost use Rattle.tool_script.specs.Next.{IsNext};
ghost use Rattle.tool_script.specs.declared.request.Ending.TheVariants.{BadScript};
ghost use Rattle.tool_script.specs.declared.line.Line.TheVariants as line;
ghost use Rattle.tool_script.specs.declared.line.Form.TheVariants as form;

use crate::ahead::{Ahead, Stop};
use crate::line::{Form, Line, MOST_LINE, read_line};
use crate::request::{Ending, Next, Request};
use identity_io::{LIMIT, Source};
use std::alloc::Global;

/// The most requests of a script.
pub const MOST_REQUESTS: u64 = 10_000;

// The length of the first line, if it has at most 4,096 bytes.
fn line_end(bytes: &[u8]) -> Option<usize>
    ensures some { IfSome result (λ n. (n ≤ MOST_LINE) × (n < length bytes.now) × (slice_index bytes.now n ≡ 10) × NoEnd bytes.now n) }
    ensures none { result ≡ None → NoEnd bytes.now 4097 }
{
    let most = bytes.len().min(MOST_LINE + 1);
    for i in 0..most {
        if bytes[i] == b'\n' {
            return Some(i);
        }
    }
    None
}

// The length of the first line, without its end; none where no end is among the next 4,097 bytes.
fn line_length<S: Source>(ahead: &mut Ahead, source: &mut S) -> Result<Option<usize>, Stop>
    ensures pending { IfOk result (λ _. Keeps (prepend_known ahead.old (S.left source.old)) (prepend_known ahead.new (S.left source.new))) }
    ensures some { IfOk result (λ found. IfSome found (λ n. (n ≤ MOST_LINE) × (n < length ahead.new) × (slice_index ahead.new n ≡ 10) × NoEnd ahead.new n)) }
    ensures none { IfOk result (λ found. found ≡ None → NoEnd ahead.new 4097 × ((4097 ≤ length ahead.new) ⊎ IsAtEnd (S.left source.new))) }
    ensures stopped { result ≡ Err Stop.Failed → NoEnd ahead.new 4097 }
    ensures pending_err { result ≡ Err Stop.Failed → Keeps (prepend_known ahead.old (S.left source.old)) (prepend_known ahead.new (S.left source.new)) }
    ensures failed { result ≡ Err Stop.Failed → Rose (S.faults source.old) (S.faults source.new) }
    ensures later { S.faults source.old ≤ S.faults source.new }
{
    'pieces: loop {
        if let Some(n) = line_end(ahead.as_slice()) {
            return Ok(Some(n));
        }
        if ahead.as_slice().len() > MOST_LINE {
            return Ok(None);
        }
        match ahead.fill(source) {
            Ok(true) => {}
            Ok(false) => return Ok(None),
            Err(stop) => return Err(stop),
        }
    }
}

// Reads on until so many bytes stand ahead; `false` where there are fewer.
fn has_bytes<S: Source>(ahead: &mut Ahead, source: &mut S, want: usize) -> Result<bool, Stop>
    ensures pending { OnOk result (Keeps (prepend_known ahead.old (S.left source.old)) (prepend_known ahead.new (S.left source.new))) }
    ensures grows { result ≢ Err Stop.OutOfMemory → (more : List ℕ) × (ahead.new ≡ ahead.old ++ more) }
    ensures yes { IfOk result (λ is. is ≡ true → want ≤ length ahead.new) }
    ensures no { IfOk result (λ is. is ≡ false → (length ahead.new < want) × IsAtEnd (S.left source.new)) }
    ensures stopped { result ≡ Err Stop.Failed → length ahead.new < want }
    ensures pending_err { result ≡ Err Stop.Failed → Keeps (prepend_known ahead.old (S.left source.old)) (prepend_known ahead.new (S.left source.new)) }
    ensures failed { result ≡ Err Stop.Failed → Rose (S.faults source.old) (S.faults source.new) }
    ensures later { S.faults source.old ≤ S.faults source.new }
{
    'pieces: while ahead.as_slice().len() < want {
        match ahead.fill(source) {
            Ok(true) => {}
            Ok(false) => return Ok(false),
            Err(stop) => return Err(stop),
        }
    }
    Ok(true)
}

// The update whose line of n bytes stands ahead, or the script's ending.
fn take_update<S: Source>(
    alloc: Global,
    ahead: &mut Ahead,
    source: &mut S,
    count: u64,
    most: u64,
    n: usize,
    size: u64,
) -> Result<Next, Stop>
    requires begun { Starts ahead.old n (line.Request (form.Update size)) }
    requires few { count < 10000 }
    requires room { most ≤ LIMIT }
    ensures next { IfOk result (λ next. IsNext count most (prepend_known ahead.old (S.left source.old)) (prepend_known ahead.new (S.left source.new)) next) }
    ensures stopped { result ≡ Err Stop.Failed → EndsAs count most ahead.new BadScript }
    ensures pending_err { result ≡ Err Stop.Failed → Keeps (prepend_known ahead.old (S.left source.old)) (prepend_known ahead.new (S.left source.new)) }
    ensures failed { result ≡ Err Stop.Failed → Rose (S.faults source.old) (S.faults source.new) }
    ensures later { S.faults source.old ≤ S.faults source.new }
{
    if size > most {
        return Ok(Next::End(Ending::TooLong));
    }
    let size = size as usize;
    let want = n + size + 2;
    match has_bytes(ahead, source, want) {
        Ok(true) => {}
        Ok(false) => return Ok(Next::End(Ending::BadScript)),
        Err(stop) => return Err(stop),
    }
    let bytes = ahead.as_slice();
    if bytes[want - 1] != b'\n' {
        return Ok(Next::End(Ending::BadScript));
    }
    let text = Vec::from_slice(alloc, &bytes[n + 1..want - 1])?;
    ahead.skip(want);
    Ok(Next::Request(Request::Update(text)))
}

// The request whose line of n bytes stands ahead, or the script's ending.
fn take_request<S: Source>(
    alloc: Global,
    ahead: &mut Ahead,
    source: &mut S,
    count: u64,
    most: u64,
    n: usize,
    form: Form,
) -> Result<Next, Stop>
    requires begun { Starts ahead.old n (line.Request form) }
    requires few { count < 10000 }
    requires room { most ≤ LIMIT }
    ensures next { IfOk result (λ next. IsNext count most (prepend_known ahead.old (S.left source.old)) (prepend_known ahead.new (S.left source.new)) next) }
    ensures stopped { result ≡ Err Stop.Failed → EndsAs count most ahead.new BadScript }
    ensures pending_err { result ≡ Err Stop.Failed → Keeps (prepend_known ahead.old (S.left source.old)) (prepend_known ahead.new (S.left source.new)) }
    ensures failed { result ≡ Err Stop.Failed → Rose (S.faults source.old) (S.faults source.new) }
    ensures later { S.faults source.old ≤ S.faults source.new }
{
    match form {
        Form::Svid => {
            ahead.skip(n + 1);
            Ok(Next::Request(Request::Svid))
        }
        Form::Bundle(domain) => {
            ahead.skip(n + 1);
            Ok(Next::Request(Request::Bundle(domain)))
        }
        Form::Update(size) => take_update(alloc, ahead, source, count, most, n, size),
    }
}

/// The next request of a script, or how the script ends, behind so many requests and where the next update may have so
/// many bytes. It errs where the source fails, and for want of memory. After `Failed` no whole request stands ahead.
pub fn next_request<S: Source>(
    alloc: Global,
    ahead: &mut Ahead,
    source: &mut S,
    count: u64,
    most: u64,
) -> Result<Next, Stop>
    requires { most ≤ LIMIT }
    ensures next { IfOk result (λ next. IsNext count most (prepend_known ahead.old (S.left source.old)) (prepend_known ahead.new (S.left source.new)) next) }
    ensures stopped { result ≡ Err Stop.Failed → EndsAs count most ahead.new BadScript }
    ensures pending_err { result ≡ Err Stop.Failed → Keeps (prepend_known ahead.old (S.left source.old)) (prepend_known ahead.new (S.left source.new)) }
    ensures failed { result ≡ Err Stop.Failed → Rose (S.faults source.old) (S.faults source.new) }
    ensures later { S.faults source.old ≤ S.faults source.new }
{
    let n = match line_length(ahead, source) {
        Ok(Some(n)) => n,
        Ok(None) => return Ok(Next::End(Ending::BadScript)),
        Err(stop) => return Err(stop),
    };
    match read_line(alloc, &ahead.as_slice()[..n])? {
        Line::End => Ok(Next::End(Ending::Done)),
        Line::Other => Ok(Next::End(Ending::BadScript)),
        Line::Request(form) => {
            if count >= MOST_REQUESTS {
                return Ok(Next::End(Ending::TooLong));
            }
            take_request(alloc, ahead, source, count, most, n, form)
        }
    }
}
