//! The security header.
ghost use Rattle.std.specs.Prelude.{◌≡◌, Some, None, Ok, IfSome, Result};
ghost use Rattle.broker_header.specs.declared.error.Status.{Status};
ghost use Rattle.broker_header.specs.Metadata.{Entries};
ghost use Rattle.broker_header.specs.SecurityHeader.{ReturnsAtMut, Ran, Ends};

use crate::error::{CallError, Status};
use crate::metadata::Metadata;
use std::fmt;
use std::marker::Model;

const BROKER_HEADER_KEY: &str = "broker.spiffe.io";

const BROKER_HEADER_VALUE: &str = "true";

/// A plain function that changes the metadata of a call or refuses it.
pub type InterceptorFn = fn(&mut Metadata) -> Result<(), Status>;

/// Sets the header that each call of the SPIFFE Broker API must carry (SPIFFE Broker Endpoint), after a function of the
/// caller's, which so can't take it out.
#[derive(Drop)]
pub struct SecurityHeader<F> {
    extra: Option<F>,
}

impl<F> Model for SecurityHeader<F> {
    ghost use Rattle.std.specs.Prelude.{Option};

    ghost Value = { Option F };

    ghost view = { λ h. h.extra };
}

impl<F: Fn(&mut Metadata) -> Result<(), Status>> SecurityHeader<F> {
    /// Sets the header alone. Where no function is at hand, its type is [`InterceptorFn`].
    pub fn new() -> Self
        ensures { result ≡ None }
    {
        SecurityHeader { extra: None }
    }

    /// Runs a function on the metadata of each call first.
    pub fn with_interceptor(extra: F) -> Self
        requires { F.IsAlwaysCallable extra }
        ensures { result ≡ Some extra }
    {
        SecurityHeader { extra: Some(extra) }
    }

    /// The metadata of a call after the function, with the header set: `Refused` with the function's status where it refuses, or `OutOfMemory`.
    pub fn call(&mut self, metadata: Metadata) -> Result<Metadata, CallError>
        requires { IfSome self.old F.IsAlwaysCallable }
        ensures ends { (answer : Result (Unit {0}) Status) × (left : Entries)
            × Ran (ReturnsAtMut F.Fn) self.old metadata answer left × Ends answer left result }
        ensures same { self.new ≡ self.old }
    {
        let mut metadata = metadata;
        match run_first(&self.extra, &mut metadata) {
            Ok(()) => set_header(metadata),
            Err(status) => Err(CallError::Refused(status)),
        }
    }
}

fn run_first<F>(extra: &Option<F>, metadata: &mut Metadata) -> Result<(), Status>
where
    F: Fn(&mut Metadata) -> Result<(), Status>,
    requires { IfSome extra.now F.IsAlwaysCallable }
    ensures { Ran (ReturnsAtMut F.Fn) extra.now metadata.old result metadata.new }
{
    match extra {
        Some(extra) => extra(metadata),
        None => Ok(()),
    }
}

fn set_header(metadata: Metadata) -> Result<Metadata, CallError>
    ensures { Ends (Ok tt) metadata result }
{
    let mut metadata = metadata;
    match metadata.insert(BROKER_HEADER_KEY, BROKER_HEADER_VALUE) {
        Ok(()) => Ok(metadata),
        Err(_) => Err(CallError::OutOfMemory),
    }
}

impl<F> fmt::Debug for SecurityHeader<F> {
    ghost use Rattle.std.specs.Prelude.{Some};
    ghost use Rattle.broker_header.specs.SecurityHeader.{header_debug};

    ghost debug_output = { λ h. Some (header_debug h) };

    fn fmt<W: fmt::Write>(&self, f: &mut fmt::Formatter<W>) -> fmt::Result {
        let extra = self.extra.is_some();
        write!(f, "SecurityHeader {{ extra: {extra} }}")
    }
}
