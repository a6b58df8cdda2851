//! Whether a bundle is formed.

ghost use Rattle.std.specs.Prelude.{◌≡◌, ◌↔◌, IsTrue};
ghost use Rattle.std.specs.List.{list_all};
ghost use Rattle.micro_isa.specs.Formed.{IsFormedBundle, fits_channels};
ghost use Rattle.micro_isa.specs.FormedTests.{bundle_test, bundle_size_test, bundle_name_test, programs_test, program_test};

use crate::formed_setting::fits_channels;
use crate::limits::{MOST_CONTEXTS, MOST_FILE};
use crate::named::has_distinct_names;
use crate::program::{Bundle, Channel, Line, Program};
use crate::{formed_program, formed_setting};

impl Bundle {
    /// Whether the bundle is formed: what the calls that take one ask for.
    pub fn is_formed(&self) -> bool
        ensures { IsTrue result ↔ IsFormedBundle self.now }
    {
        passes(self)
    }
}

fn passes(bundle: &Bundle) -> bool
    ensures { result ≡ bundle_test bundle.now }
{
    let programs = bundle.programs.as_slice();
    let channels = bundle.setting.channels.as_slice();
    has_formed_sizes(bundle)
        && has_formed_names(bundle)
        && formed_setting::passes(&bundle.setting)
        && are_formed(programs, channels)
}

fn has_formed_sizes(bundle: &Bundle) -> bool
    ensures { result ≡ bundle_size_test bundle.now }
{
    let contexts = bundle.programs.len();
    1 <= bundle.file && bundle.file <= MOST_FILE && 1 <= contexts && contexts <= MOST_CONTEXTS
}

fn has_formed_names(bundle: &Bundle) -> bool
    ensures { result ≡ bundle_name_test bundle.now }
{
    bundle.names.len() == bundle.setting.channels.len()
        && has_distinct_names(bundle.names.as_slice())
        && has_distinct_names(bundle.programs.as_slice())
}

fn are_formed(programs: &[Program], channels: &[Channel]) -> bool
    ensures { result ≡ programs_test channels.now programs.now }
{
    all_pass(programs) && all_fit(programs, channels)
}

fn all_pass(programs: &[Program]) -> bool
    ensures { result ≡ list_all program_test programs.now }
{
    programs
        .iter()
        .all(|program| formed_program::passes(program))
}

fn all_fit(programs: &[Program], channels: &[Channel]) -> bool
    ensures { result ≡ list_all (λ p. list_all (λ l. fits_channels channels.now l.instr) p.code) programs.now }
{
    programs
        .iter()
        .all(|program| code_fits(program.code.as_slice(), channels))
}

fn code_fits(code: &[Line], channels: &[Channel]) -> bool
    ensures { result ≡ list_all (λ l. fits_channels channels.now l.instr) code.now }
{
    code.iter().all(|line| fits_channels(channels, &line.instr))
}
