//! The lines of a script.
ghost use Rattle.std.specs.Prelude.{◌≡◌, ◌≢◌, ◌<◌, ◌^◌, ℕ, List, None, IfNone, IfOk, IfSome, decimal};
ghost use Rattle.tool_script.specs.Request.{Names};
ghost use Rattle.tool_script.specs.Line.{Says, Tells};
ghost use Rattle.tool_script.specs.declared.line.Form.{Form};

use command_line::read_number;
use spiffe_id::{SpiffeIdError, TrustDomain};
use std::alloc::{AllocError, Global};
use std::str;

/// The most bytes of a line, without its end.
pub const MOST_LINE: usize = 4_096;

/// What a request asks for, as its line tells.
#[derive(Drop)]
pub enum Form {
    /// `svid`.
    Svid,

    /// `bundle` and a name of this trust domain.
    Bundle(TrustDomain),

    /// `update` and how many bytes follow.
    Update(u64),
}

/// What one line says.
#[derive(Drop)]
pub enum Line {
    /// The script ends here.
    End,

    /// A request begins.
    Request(Form),

    /// No request has this line.
    Other,
}

// The number that the bytes write, if they do.
fn number_of(digits: &[u8]) -> Option<u64>
    ensures some { IfSome result (λ n. (digits.now ≡ decimal n) × (n < 2 ^ 64)) }
    ensures none { IfNone result ((n : ℕ) → n < 2 ^ 64 → digits.now ≢ decimal n) }
{
    match str::from_utf8(digits) {
        Ok(text) => read_number(text),
        Err(_) => None,
    }
}

// The trust domain that the bytes name, if they do.
fn domain_of(alloc: Global, name: &[u8]) -> Result<Option<TrustDomain>, AllocError>
    ensures some { IfOk result (λ found. IfSome found (λ domain. Names name.now domain)) }
    ensures none { IfOk result (λ found. found ≡ None → (domain : List ℕ) → Names name.now domain → ⊥) }
{
    let Ok(text) = str::from_utf8(name) else {
        return Ok(None);
    };
    match TrustDomain::new(alloc, text) {
        Ok(domain) => Ok(Some(domain)),
        Err(SpiffeIdError::OutOfMemory) => Err(AllocError),
        Err(_) => Ok(None),
    }
}

// The form of the request that begins with the line, if one does.
fn form_of(alloc: Global, line: &[u8]) -> Result<Option<Form>, AllocError>
    ensures some { IfOk result (λ found. IfSome found (λ form. Tells line.now form)) }
    ensures none { IfOk result (λ found. found ≡ None → (form : Form) → Tells line.now form → ⊥) }
{
    if line == b"svid".as_slice() {
        return Ok(Some(Form::Svid));
    }
    if let Some(name) = line.strip_prefix(b"bundle ") {
        return match domain_of(alloc, name)? {
            Some(domain) => Ok(Some(Form::Bundle(domain))),
            None => Ok(None),
        };
    }
    match line.strip_prefix(b"update ") {
        Some(digits) => match number_of(digits) {
            Some(size) => Ok(Some(Form::Update(size))),
            None => Ok(None),
        },
        None => Ok(None),
    }
}

/// What the line says. It errs for want of memory alone.
pub fn read_line(alloc: Global, line: &[u8]) -> Result<Line, AllocError>
    ensures { IfOk result (λ says. Says line.now says) }
{
    if line == b"end".as_slice() {
        return Ok(Line::End);
    }
    match form_of(alloc, line)? {
        Some(form) => Ok(Line::Request(form)),
        None => Ok(Line::Other),
    }
}
