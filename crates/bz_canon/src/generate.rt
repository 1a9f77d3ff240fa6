//! A generated Breakpad text, and addresses among its functions.

ghost use Rattle.std.specs.Prelude.{◌≡◌, ◌≤◌, ◌<◌, ◌+◌, ◌++◌, codes, string_bytes, IfOk, OnOk, IsOkUnless};
ghost use Rattle.bz_base.specs.declared.error.Error.{Error};
ghost use Rattle.bz_canon.specs.Generated.{address_by, addresses_after, function_line, function_text, generated_text, hexadecimal, line_record, next_number, start_of};

use bz_base::{Error, Result};
use std::alloc::Global;

/// The Breakpad text of so many functions, the last one first. Function i starts at 4096 + 64 * i. It
/// has 48 bytes, an inlined call at its front and two lines.
pub fn gen_text(alloc: Global, functions: u64) -> Result<Vec<u8>>
    requires { functions ≤ 100000 }
    ensures ok { IfOk result (λ bytes. bytes.items ≡ generated_text functions) }
    ensures memory { IsOkUnless result Error.OutOfMemory }
{
    let mut text = String::from_str(
        alloc,
        "MODULE Linux x86_64 0 gen\nFILE 0 gen.c\nINLINE_ORIGIN 0 g\n",
    )?;
    for i in (0..functions).rev() {
        push_function(&mut text, i)?;
    }
    Ok(text.into_bytes())
}

fn push_function(text: &mut String, i: u64) -> Result<()>
    requires { i < 100000 }
    ensures ok { OnOk result (string_bytes text.new ≡ string_bytes text.old ++ function_text i) }
    ensures memory { IsOkUnless result Error.OutOfMemory }
{
    let start = start_of(i);
    push_function_line(text, start, i)?;
    push_inline_line(text, start)?;
    push_line_record(text, start, "10", i + 1)?;
    push_line_record(text, start + 16, "20", i + 2)
}

fn start_of(i: u64) -> u64
    requires { i < 100000 }
    ensures start { result ≡ start_of i }
    ensures small { result < 10000000 }
{
    4096 + 64 * i
}

fn push_function_line(text: &mut String, start: u64, i: u64) -> Result<()>
    requires { start ≡ start_of i }
    ensures ok { OnOk result (string_bytes text.new ≡ string_bytes text.old ++ function_line i) }
    ensures memory { IsOkUnless result Error.OutOfMemory }
{
    write!(text, "FUNC {start:x} 30 0 f{i}\n")?;
    Ok(())
}

fn push_inline_line(text: &mut String, start: u64) -> Result<()>
    ensures ok { OnOk result (string_bytes text.new ≡ string_bytes text.old ++ (codes "INLINE 0 7 0 0 " ++ (hexadecimal start ++ codes " 8\n"))) }
    ensures memory { IsOkUnless result Error.OutOfMemory }
{
    write!(text, "INLINE 0 7 0 0 {start:x} 8\n")?;
    Ok(())
}

fn push_line_record(text: &mut String, start: u64, size: &str, line: u64) -> Result<()>
    ensures ok { OnOk result (string_bytes text.new ≡ string_bytes text.old ++ line_record start size.now line) }
    ensures memory { IsOkUnless result Error.OutOfMemory }
{
    write!(text, "{start:x} {size} {line} 0\n")?;
    Ok(())
}

/// So many addresses, by the numbers after the seed, each made of the one before it. They lie among
/// the functions or a little past the last one, but in 32768 bytes: none lies in function 512 or a
/// later one.
pub fn gen_addrs(alloc: Global, seed: u64, functions: u64, addresses: u64) -> Result<Vec<u64>>
    requires seed { seed < 2147483648 }
    requires functions { functions ≤ 100000 }
    requires addresses { addresses ≤ 100000 }
    ensures ok { IfOk result (λ addrs. addrs.items ≡ addresses_after functions seed addresses) }
    ensures memory { IsOkUnless result Error.OutOfMemory }
{
    let mut addrs = Vec::new(alloc);
    let mut number = seed;
    for _ in 0..addresses {
        number = next_number(number);
        addrs.push(address_by(functions, number))?;
    }
    Ok(addrs)
}

fn next_number(x: u64) -> u64
    requires { x < 2147483648 }
    ensures next { result ≡ next_number x }
    ensures small { result < 2147483648 }
{
    (x * 1_103_515_245 + 12345) % 2_147_483_648
}

fn address_by(functions: u64, x: u64) -> u64
    requires { functions ≤ 100000 }
    ensures { result ≡ address_by functions x }
{
    4096 + (x / 65536) % (64 * functions + 64)
}
