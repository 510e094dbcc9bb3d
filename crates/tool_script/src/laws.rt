//! Laws of scripts, as the contract of a function that does no work.
ghost use Rattle.tool_script.specs.Script.{HaveOneReading, LeadTheRequests};

/// Bytes have at most one reading as a script: one list of whole requests, and one ending. Whole requests that stand at
/// the front of a script are its first ones.
pub fn scripts_have_one_reading()
    ensures one { HaveOneReading }
    ensures front { LeadTheRequests }
{}
