// `lotjudge` (document 01, section 7): reads a lot from standard input, judges it and writes what is found to standard output.
// No text that describes a lot is longer than 11,834 bytes: the first 11,835 of an input tell what is printed (`front-enough` of `judge`).
// A failed read or write is told on standard error; an input whose reading failed is 12. No signal is handled, so none interrupts a read; an
// interrupted one would count as failed.
#![tactic(auto)]

ghost use Rattle.std.specs.Prelude.{◌≤◌, ◌<◌, ◌≡◌, length, IfOk};
ghost use Rattle.std.specs.Counts.{IsPrefixLen};
ghost use Rattle.std.specs.Io.KnownBytes.{IsAtEnd};
ghost use Rattle.judge_printing.specs.Page.{page, onto};
ghost use Rattle.lotjudge.specs.Reading.{printed_of};

use outcome::Refusal;
use std::io;

// Reads until the buffer is full, the input ends or a read fails; the answer is the number of bytes. A read that failed is not the end, and is not tried again. Each turn
// goes on by as many bytes as were read: no index is counted.
fn read_input<R: io::Read>(from: &mut R, buffer: &mut [u8]) -> io::Result<usize>
    ensures within { IfOk result (λ n. IsPrefixLen n buffer.new) }
    ensures whole { IfOk result (λ n. n < length buffer.new → IsAtEnd (R.remaining from.new)) }
{
    let mut n = 0;
    while n < buffer.len() {
        let k = from.read(&mut buffer[n..])?;
        if k == 0 {
            return Ok(n);
        }
        n += k;
    }
    Ok(n)
}

// Prints at the front of `out` what is found of an input, the bytes that were read to the front of `buffer`; the answer is the number of bytes.
fn print_input(
    rt: &HostRuntime,
    read: io::Result<usize>,
    buffer: &[u8],
    out: &mut [u8; limits::MOST_PRINTED],
) -> usize
    requires { IfOk read (λ n. n ≤ length buffer.now) }
    ensures { page result out.new ≡ onto (printed_of read buffer.now) out.old }
{
    match read {
        Ok(n) => judge::judge(&buffer[..n], out),
        Err(_) => {
            let _ = rt
                .stderr()
                .write_all(b"lotjudge: reading standard input failed\n");
            judge_printing::print(Err(Refusal::Frame), out)
        }
    }
}

// The first n bytes of `out`.
fn write_front(rt: &HostRuntime, out: &[u8], n: usize)
    requires { n ≤ length out.now }
{
    if rt.stdout().write_all(&out[..n]).is_err() {
        let _ = rt
            .stderr()
            .write_all(b"lotjudge: writing standard output failed\n");
    }
}

fn judge_and_write(
    rt: &HostRuntime,
    read: io::Result<usize>,
    buffer: &[u8],
    out: &mut [u8; limits::MOST_PRINTED],
)
    requires { IfOk read (λ n. n ≤ length buffer.now) }
{
    let n = print_input(rt, read, buffer, out);
    write_front(rt, out, n);
}

fn main(rt: HostRuntime) {
    let mut buffer = [0u8; limits::MOST_TEXT + 1];
    let mut out = [0u8; limits::MOST_PRINTED];
    let read = read_input(&mut rt.stdin(), &mut buffer);
    judge_and_write(&rt, read, &buffer, &mut out);
}
