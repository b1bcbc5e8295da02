// What each call from C does to a hasher, in safe code.

ghost use Rattle.std.specs.Prelude.{◌≡◌};
ghost use Rattle.b3_c.specs.Calls.{IsAppended, IsNew, IsOutput};
ghost use Rattle.b3_core.specs.Modes.{hash_mode, keyed_mode};
ghost use Rattle.b3_hash.specs.Derivation.{derived_mode};
ghost use Rattle.b3_hash.specs.Hashers.{mode_of};

use b3_core::Mode;
use b3_hash::Hasher;

pub(crate) fn plain_hasher() -> Hasher
    ensures new { IsNew hash_mode result }
{
    Hasher::new(Mode::hash())
}

pub(crate) fn keyed_hasher(key: &[u8; 32]) -> Hasher
    ensures new { IsNew (keyed_mode key.now) result }
{
    Hasher::new(Mode::keyed(key))
}

// A context from C is any bytes, and perhaps no text.
fn material_mode(context: &[u8]) -> Mode
    ensures mode { result ≡ derived_mode context.now }
{
    let mut hasher = Hasher::new(Mode::context());
    hasher.update(context).unwrap();
    let mut key = [0; 32];
    hasher.finish().fill(&mut key).unwrap();
    Mode::material(&key)
}

pub(crate) fn deriving_hasher(context: &[u8]) -> Hasher
    ensures new { IsNew (derived_mode context.now) result }
{
    Hasher::new(material_mode(context))
}

pub(crate) fn append(hasher: &mut Hasher, input: &[u8])
    ensures appended { IsAppended hasher.old input.now hasher.new }
{
    let _ = hasher.update(input);
}

pub(crate) fn start_over(hasher: &mut Hasher)
    ensures new { IsNew (mode_of hasher.old) hasher.new }
{
    hasher.reset();
}

pub(crate) fn read_from(hasher: &Hasher, seek: u64, out: &mut [u8])
    ensures output { IsOutput hasher.now seek out.old out.new }
{
    let mut output = hasher.finish();
    output.seek(seek);
    let _ = output.fill(out);
}

pub(crate) fn read(hasher: &Hasher, out: &mut [u8])
    ensures output { IsOutput hasher.now 0 out.old out.new }
{
    read_from(hasher, 0, out);
}
