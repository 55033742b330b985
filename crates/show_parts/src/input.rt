ghost use Rattle.std.specs.Prelude.{◌≡◌, take, IfOk, IfSome};

use std::alloc::Global;
use std::io;
use std::io::Read;

/// How many bytes of the input are read.
const INPUT_LIMIT: u64 = 65_536;

/// The first bytes of the input, as many as the limit.
pub fn read_front<R: Read + Drop>(heap: Global, input: R) -> io::Result<Vec<u8>>
    ensures front { IfSome (R.Read.remaining input) (λ xs. IfOk result (λ bytes. bytes.items ≡ take 65536 xs)) }
{
    let mut bytes = Vec::new(heap);
    input.take(INPUT_LIMIT).read_to_end(&mut bytes)?;
    Ok(bytes)
}
