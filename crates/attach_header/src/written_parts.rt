// The written form, part by part: each is put at a place of the buffer, and the place behind it is answered. There is room for all of them.
ghost use Rattle.std.specs.Prelude.{◌≡◌, ◌+◌, ◌≤◌, length, true};
ghost use Rattle.digits.specs.PutAt.{put_at};
ghost use Rattle.attach_header.specs.Fields.{text_of, fields_of};
ghost use Rattle.attach_header.specs.Written.{
  subfield,
  three_subfields,
  security,
  identifier,
  work,
  trailing,
  data_fits,
  lu_fits,
  needed,
  writable,
};

use crate::subfields::{PASSWORD, PROFILE, USER};
use crate::written_tests::{security_needs, work_needs};
use crate::{Attach, SymbolString};
use digits::printed::put;

// A string: the bytes up to its length.
pub(crate) fn put_string(out: &mut [u8], at: usize, s: SymbolString) -> usize
    ensures { (result, out.new) ≡ put_at (text_of s) at out.old }
{
    match s.text() {
        Some(text) => put(out, at, text),
        None => put(out, at, &s.bytes),
    }
}

// A security subfield: the length of its type and data, the type, the data. Nothing, where there is no data.
fn put_subfield(out: &mut [u8], at: usize, kind: u8, s: SymbolString) -> usize
    requires { (data_fits s ≡ true) × (at + length (subfield kind (text_of s)) ≤ length out.old) }
    ensures { (result, out.new) ≡ put_at (subfield kind (text_of s)) at out.old }
{
    let n = s.length;
    if n == 0 {
        return at;
    }
    let head = [n + 1, kind];
    let next = put(out, at, &head);
    put_string(out, next, s)
}

pub(crate) fn put_security(
    out: &mut [u8],
    at: usize,
    profile: SymbolString,
    password: SymbolString,
    user: SymbolString,
) -> usize
    requires profile_value { (data_fits profile ≡ true) × (data_fits password ≡ true) × (data_fits user ≡ true) }
    requires user_in_bounds { at + length (three_subfields (text_of profile) (text_of password) (text_of user)) ≤ length out.old }
    ensures { (result, out.new) ≡ put_at (three_subfields (text_of profile) (text_of password) (text_of user)) at out.old }
{
    let second = put_subfield(out, at, PROFILE, profile);
    let third = put_subfield(out, second, PASSWORD, password);
    put_subfield(out, third, USER, user)
}

// The identifier behind its length byte. Nothing, where there is no name.
pub(crate) fn put_work(
    out: &mut [u8],
    at: usize,
    lu: SymbolString,
    instance: [u8; 6],
    sequence: [u8; 2],
) -> usize
    requires { (lu_fits lu ≡ true) × (at + length (identifier (text_of lu) instance sequence) ≤ length out.old) }
    ensures { (result, out.new) ≡ put_at (identifier (text_of lu) instance sequence) at out.old }
{
    let n = lu.length;
    if n == 0 {
        return at;
    }
    let head = [n];
    let name = put(out, at, &head);
    let first = put_string(out, name, lu);
    let second = put(out, first, &instance);
    put(out, second, &sequence)
}

// The length byte of the security subfields goes where nothing follows it, that of the identifier where there is none.
pub(crate) fn put_trailing(out: &mut [u8], at: usize, attach: Attach) -> usize
    requires attach_value { (writable attach ≡ true) × (needed attach ≤ 255) }
    requires attach_in_bounds { at + length (trailing (security (fields_of attach)) (work (fields_of attach))) ≤ length out.old }
    ensures { (result, out.new) ≡ put_at (trailing (security (fields_of attach)) (work (fields_of attach))) at out.old }
{
    let s = security_needs(
        attach.profile.length,
        attach.password.length,
        attach.user.length,
    );
    let w = work_needs(attach.lu.length);
    if (s == 0) & (w == 0) {
        return at;
    }
    let before = [s as u8];
    let security = put(out, at, &before);
    let behind = put_security(out, security, attach.profile, attach.password, attach.user);
    if w == 0 {
        return behind;
    }
    let length = [w as u8];
    let work = put(out, behind, &length);
    put_work(out, work, attach.lu, attach.instance, attach.sequence)
}
