ghost use Rattle.std.specs.Prelude.{◌≡◌};
ghost use Rattle.report.specs.Call.{report};
ghost use Rattle.capi.specs.Flat.{call_of, Sheets};

use crate::systems::{KifwalebOutcome, counted};
use outcome::Refusal;
use report::{Written, report};

// The answer of a call with a sheet; the count is of bytes.
impl From<Result<Written, Refusal>> for KifwalebOutcome {
    ghost from_gives = { Sheets };

    fn from(r: Result<Written, Refusal>) -> KifwalebOutcome {
        match r {
            Ok(w) => counted(Ok(w.ending), w.count),
            Err(o) => counted(Err(o), 0),
        }
    }
}

// From a text to the sheet of its balance, or its refusal.
#[unsafe(no_mangle)]
pub extern "C" fn kifwaleb_report(text: &[u8], out: &mut [u8]) -> KifwalebOutcome
    ensures { call_of result out.new ≡ report text.now out.old }
{
    report(text, out).into()
}
