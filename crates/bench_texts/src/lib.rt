// Both forms of comparing texts, byte by byte and by words, for the benchmark. No export of the library reaches this crate.
#![tactic(auto)]

ghost use Rattle.std.specs.Prelude.{◌≡◌};
ghost use Rattle.rl_spec.specs.Values.{same_text, less_text};

#[unsafe(no_mangle)]
pub extern "C" fn bench_same_bytes(a: &[u8], b: &[u8]) -> bool
    ensures { result ≡ same_text a.now b.now }
{
    rl_text_order::same_bytes(a, b)
}

#[unsafe(no_mangle)]
pub extern "C" fn bench_same_text(a: &[u8], b: &[u8]) -> bool
    ensures { result ≡ same_text a.now b.now }
{
    rl_text_order::same_text(a, b)
}

#[unsafe(no_mangle)]
pub extern "C" fn bench_less_bytes(a: &[u8], b: &[u8]) -> bool
    ensures { result ≡ less_text a.now b.now }
{
    rl_text_order::less_bytes(a, b)
}

#[unsafe(no_mangle)]
pub extern "C" fn bench_less_text(a: &[u8], b: &[u8]) -> bool
    ensures { result ≡ less_text a.now b.now }
{
    rl_text_order::less_text(a, b)
}
