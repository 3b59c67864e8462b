// The C interface as C links it: a library is no archive for C, so each call of `plavotesk` is exported here under its own name and with its
// own clauses, and does nothing but that call.
#![tactic(auto)]

ghost use Rattle.std.specs.Prelude.{◌≡◌};
ghost use Rattle.plavotesk.specs.Meaning.{interface};

mod cadences;
mod codes;
mod formats;
mod histograms;
mod messages;
mod packets;

// The version of this interface.
#[unsafe(no_mangle)]
pub extern "C" fn plv_version() -> u32
    ensures { result ≡ interface }
{
    plavotesk::plv_version()
}
