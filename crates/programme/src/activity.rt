// Activities, and the records that their argument bytes hold.
ghost use Rattle.std.specs.Prelude.{◌≡◌, ℕ, ◌≤◌, List, length, Some, Option};
ghost use Rattle.layout.specs.Layout.{max_args};
ghost use Rattle.programme.specs.declared.choice.Choice.TheVariants.{Call};
ghost use Rattle.programme.specs.Verdicts.{Written};

use crate::choice::{Choice, ProgrammeFault};

// A record of arguments: it writes itself as bytes, and reads back what it wrote.
pub trait ArgumentRecord: Sized {
    // Its bytes, and what bytes are read as.
    ghost image: { Self → List ℕ };

    ghost parsed: { List ℕ → Option Self };

    // Writes it to the front of a lent slice, and answers how many bytes it has. A slice without room for them is refused with 14, and stays.
    // kept: the project lends the slice, so a length is all there is to answer.
    fn write(&self, out: &mut [u8]) -> Result<usize, ProgrammeFault>
        ensures { Written (image self.now) (length (image self.now)) out.old result out.new };

    // The record that these bytes are; none if they are no such record.
    // kept: tried as a supertrait for<'a> TryFrom<&'a [u8]>; the check cannot state a bound that binds a lifetime.
    fn read(bytes: &[u8]) -> Option<Self>
        ensures { result ≡ parsed bytes.now };

    // What was written is read back, and a frame has room for it.
    ghost back: { (x : Self) → parsed (image x) ≡ Some x };

    ghost brief: { (x : Self) → length (image x) ≤ max_args };
}

// An activity that can be called: the number of its kind, and the record that its arguments hold.
pub trait Activity {
    ghost KIND: { ℕ };

    const KIND: u16;

    type Args: ArgumentRecord;
}

// Chooses to call an activity with these arguments, whose bytes are written to the buffer's front. A buffer without room for them
// is refused with 14, and stays.
pub fn call<T: Activity>(args: &T::Args, out: &mut [u8]) -> Result<Choice, ProgrammeFault>
    ensures { Written (T.Args.ArgumentRecord.image args.now) (Call T.KIND (length (T.Args.ArgumentRecord.image args.now))) out.old result out.new }
{
    let count = args.write(out)?;
    Ok(Choice::Call {
        kind: T::KIND,
        count,
    })
}

// Copies the bytes to the front of a slice, and answers how many; a shorter slice is refused with 14, and stays.
pub(crate) fn put<const N: usize>(bytes: [u8; N], out: &mut [u8]) -> Result<usize, ProgrammeFault>
    ensures { Written bytes.entry N out.old result out.new }
{
    *out.first_chunk_mut().ok_or(ProgrammeFault::ShortBuffer)? = bytes;
    Ok(N)
}
