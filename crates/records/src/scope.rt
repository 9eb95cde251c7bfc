// The part that entries and certificates share: 66 bytes.
ghost use Rattle.std.specs.Prelude.{◌≡◌, false, ◌&&◌, leb, length, Decides, if◌then◌else◌, Some, None, ◌==◌, nat_le, slice_index};
ghost use Rattle.std.specs.Result.{result_unwrap_or};
ghost use Rattle.std.specs.Str.{bytes_eq};
ghost use Rattle.permission.specs.Names.{IsName};
ghost use Rattle.permission.specs.Reading.{covering};
ghost use Rattle.records.specs.Records.{term_bytes, filling, scope_bytes, scope_at, sound_scope, scope_in};
ghost use Rattle.records.specs.Equality.{same_window};
ghost use Rattle.records.specs.Inverse.{WindowFits, ScopeFits};
ghost use Rattle.records.specs.Applicability.{applicable, Applicable, TestDecidesForNames};

use crate::bytes::{all_zero, array_at};
use crate::types::Scope;
use refusal::Refusal;

// Where the fields begin, and the length of the whole.
const FLAG: usize = 0;

const NOT_BEFORE: usize = 1;

const NOT_AFTER: usize = 9;

const TERM_LENGTH: usize = 17;

const TERM: usize = 18;

const LENGTH: usize = 66;

const TERM_ROOM: u8 = 48;

// The flag that a byte stands for.
fn flag_in(byte: u8) -> Option<bool>
    ensures { result ≡ (if nat_le byte 1 then Some (byte == 1) else None) }
{
    match byte {
        0 => Some(false),
        1 => Some(true),
        _ => None,
    }
}

impl Scope {
    // The fields as they stand, sound or not; none where the flag is neither 0 nor 1.
    fn fields(bytes: &[u8]) -> Option<Scope>
        requires { length bytes.now ≡ 66 }
        ensures { result ≡ (if nat_le (slice_index bytes.now 0) 1 then Some (scope_at bytes.now) else None) }
    {
        Some(Scope {
            delegate: flag_in(bytes[FLAG])?,
            not_before: u64::from_be_bytes(array_at(bytes, NOT_BEFORE)),
            not_after: u64::from_be_bytes(array_at(bytes, NOT_AFTER)),
            term_length: bytes[TERM_LENGTH],
            term: array_at(bytes, TERM),
        })
    }

    #[tactic(auto, unfolding(crate::specs::Records::scope_in))]
    pub(crate) fn read(bytes: &[u8]) -> Result<Scope, Refusal>
        ensures { result ≡ scope_in bytes.now }
    {
        if bytes.len() != LENGTH {
            return Err(Refusal::Malformed);
        }
        let scope = Scope::fields(bytes).ok_or(Refusal::Malformed)?;
        if scope.is_sound() {
            Ok(scope)
        } else {
            Err(Refusal::Malformed)
        }
    }

    pub(crate) fn write(&self) -> [u8; 66]
        ensures as_defined { result ≡ scope_bytes self.now }
        ensures fits { ScopeFits self.now }
    {
        let mut out = [0; LENGTH];
        let (flag, rest) = out.split_at_mut(NOT_BEFORE);
        let (not_before, rest) = rest.split_at_mut(NOT_AFTER - NOT_BEFORE);
        let (not_after, rest) = rest.split_at_mut(TERM_LENGTH - NOT_AFTER);
        let (term_length, term) = rest.split_at_mut(TERM - TERM_LENGTH);
        flag.copy_from_slice(&[u8::from(self.delegate)]);
        not_before.copy_from_slice(&self.not_before.to_be_bytes());
        not_after.copy_from_slice(&self.not_after.to_be_bytes());
        term_length.copy_from_slice(&self.term_length.to_be_bytes());
        term.copy_from_slice(&self.term);
        out
    }

    // What the rules ask of the fields.
    fn is_sound(&self) -> bool
        ensures { result ≡ sound_scope self.now }
    {
        (self.not_before <= self.not_after)
            & (self.term_length <= TERM_ROOM)
            & permission::is_well_formed(self.term_bytes())
            & all_zero(self.filling())
    }

    // The term, without the bytes behind it.
    fn term_bytes(&self) -> &[u8]
        ensures { result.now ≡ term_bytes self.now }
    {
        &self.term[0..usize::from(self.term_length.min(TERM_ROOM))]
    }

    // The bytes behind the term.
    fn filling(&self) -> &[u8]
        ensures { result.now ≡ filling self.now }
    {
        &self.term[usize::from(self.term_length.min(TERM_ROOM))..48]
    }

    // Both ends of the window belong to it.
    fn is_current(&self, clock: u64) -> bool
        ensures { result ≡ (leb self.now.not_before clock && nat_le clock self.now.not_after) }
    {
        (self.not_before <= clock) & (clock <= self.not_after)
    }

    fn covers(&self, name: &[u8]) -> bool
        ensures { result ≡ result_unwrap_or (covering (term_bytes self.now) name.now) false }
    {
        permission::covers(self.term_bytes(), name).unwrap_or(false)
    }

    // Whether it applies to that name at that time.
    pub fn applies(&self, clock: u64, name: &[u8]) -> bool
        ensures as_defined { result ≡ applicable self.now clock name.now }
        ensures yes_exactly_where_it_applies { IsName name.now → Decides result (Applicable self.now clock name.now) }
        ensures test_decides_for_names { TestDecidesForNames }
    {
        self.is_current(clock) && self.covers(name)
    }

    // Whether both have one window, each end of which fits eight bytes.
    pub(crate) fn same_window(&self, other: &Scope) -> bool
        ensures same { result ≡ same_window self.now other.now }
        ensures fits { WindowFits self.now × WindowFits other.now }
    {
        (self.not_before == other.not_before) & (self.not_after == other.not_after)
    }
}
