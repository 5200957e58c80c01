// What is asked of fields that are to be written.
ghost use Rattle.std.specs.Prelude.{◌≡◌, ◌≤◌};
ghost use Rattle.attach_header.specs.Written.{
  subfield_needs,
  work_needs,
  trailing_needs,
  security_needs,
  needed,
  program_fits,
  data_fits,
  lu_fits,
  numbers_whole,
  writable,
};

use crate::names::{data_good, lu_name_good, program_good};
use crate::reading::resource_good;
use crate::{Attach, SymbolString};

// A subfield has a length byte and a type.
fn subfield_needs(n: u8) -> usize
    ensures { (result ≡ subfield_needs n) × (result ≤ 257) }
{
    if n == 0 {
        return 0;
    }
    n as usize + 2
}

// An identifier has the length of its name, and eight bytes behind the name.
pub(crate) fn work_needs(n: u8) -> usize
    ensures { (result ≡ work_needs n) × (result ≤ 264) }
{
    if n == 0 {
        return 0;
    }
    n as usize + 9
}

pub(crate) fn security_needs(profile: u8, password: u8, user: u8) -> usize
    ensures { (result ≡ security_needs profile password user) × (result ≤ 771) }
{
    subfield_needs(profile) + subfield_needs(password) + subfield_needs(user)
}

// The length byte of the security subfields goes where nothing follows it, that of the identifier where there is none.
fn trailing_needs(security: usize, work: usize) -> usize
    requires { (security ≤ 771) × (work ≤ 264) }
    ensures { (result ≡ trailing_needs security work) × (result ≤ 1037) }
{
    if work != 0 {
        return security + work + 2;
    }
    if security != 0 {
        return security + 1;
    }
    0
}

// The length that the header would have, whatever the lengths of its strings.
pub(crate) fn needed_length(attach: Attach) -> usize
    ensures { result ≡ needed attach }
{
    let security = security_needs(
        attach.profile.length,
        attach.password.length,
        attach.user.length,
    );
    10 + attach.program.length as usize + trailing_needs(security, work_needs(attach.lu.length))
}

#[tactic(auto, unfolding(crate::specs::Written::program_fits))]
fn program_fits(s: SymbolString) -> bool
    ensures { result ≡ program_fits s }
{
    s.text().is_some_and(program_good)
}

#[tactic(auto, unfolding(crate::specs::Written::data_fits))]
fn data_fits(s: SymbolString) -> bool
    ensures { result ≡ data_fits s }
{
    s.text().is_some_and(data_good)
}

#[tactic(auto, unfolding(crate::specs::Written::lu_fits))]
fn lu_fits(s: SymbolString) -> bool
    ensures { result ≡ lu_fits s }
{
    s.text()
        .is_some_and(|text| text.is_empty() | lu_name_good(text))
}

// True of all that the type Attach holds. It is asked so that the definition assumes nothing of the two arrays.
fn numbers_whole(instance: [u8; 6], sequence: [u8; 2]) -> bool
    ensures { result ≡ numbers_whole instance sequence }
{
    let six: &[u8] = &instance;
    let two: &[u8] = &sequence;
    (six.len() == 6) & (two.len() == 2)
}

// The fields are such as appendix H allows.
pub(crate) fn is_writable(attach: Attach) -> bool
    ensures { result ≡ writable attach }
{
    let numbers = (attach.pip <= 1) & resource_good(attach.resource) & (attach.sync <= 2);
    let strings = program_fits(attach.program)
        & data_fits(attach.profile)
        & data_fits(attach.password)
        & data_fits(attach.user)
        & lu_fits(attach.lu);
    numbers & strings & numbers_whole(attach.instance, attach.sequence)
}
