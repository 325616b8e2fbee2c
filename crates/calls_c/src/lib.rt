// The C calls: each is calls' function of its name, which include/rozimaha.h declares.
#![tactic(auto)]

ghost use Rattle.std.specs.Prelude.{◌≡◌};
ghost use Rattle.samples.specs.Lent.{from_bytes_number, from_bytes_output, to_bytes_number, to_bytes_output};
ghost use Rattle.pcmu.specs.Mulaw.{mu_byte, mu_value};
ghost use Rattle.pcma.specs.Alaw.{a_byte, a_value};
ghost use Rattle.calls.specs.G722.{encoder_begin_number, encoder_begin_mark, decoder_begin_number, decoder_begin_mark};
ghost use Rattle.calls.specs.G722.{encode_call_number, encode_call_out, encode_call_mark};
ghost use Rattle.calls.specs.G722.{decode_call_number, decode_call_out, decode_call_mark};

#[unsafe(no_mangle)]
pub extern "C" fn rozimaha_pcmu_encode(input: &[u8], out: &mut [u8]) -> u32
    ensures value { result ≡ from_bytes_number input.now out.old }
    ensures out_after { out.new ≡ from_bytes_output mu_byte input.now out.old }
{
    calls::rozimaha_pcmu_encode(input, out)
}

#[unsafe(no_mangle)]
pub extern "C" fn rozimaha_pcmu_decode(input: &[u8], out: &mut [u8]) -> u32
    ensures value { result ≡ to_bytes_number input.now out.old }
    ensures out_after { out.new ≡ to_bytes_output mu_value input.now out.old }
{
    calls::rozimaha_pcmu_decode(input, out)
}

#[unsafe(no_mangle)]
pub extern "C" fn rozimaha_pcma_encode(input: &[u8], out: &mut [u8]) -> u32
    ensures value { result ≡ from_bytes_number input.now out.old }
    ensures out_after { out.new ≡ from_bytes_output a_byte input.now out.old }
{
    calls::rozimaha_pcma_encode(input, out)
}

#[unsafe(no_mangle)]
pub extern "C" fn rozimaha_pcma_decode(input: &[u8], out: &mut [u8]) -> u32
    ensures value { result ≡ to_bytes_number input.now out.old }
    ensures out_after { out.new ≡ to_bytes_output a_value input.now out.old }
{
    calls::rozimaha_pcma_decode(input, out)
}

#[unsafe(no_mangle)]
pub extern "C" fn rozimaha_g722_encode(
    mark: &[u8],
    input: &[u8],
    out: &mut [u8],
    next: &mut [u8],
) -> u32
    ensures value { result ≡ encode_call_number mark.now input.now out.old next.old }
    ensures out_after { out.new ≡ encode_call_out mark.now input.now out.old next.old }
    ensures next_after { next.new ≡ encode_call_mark mark.now input.now out.old next.old }
{
    calls::rozimaha_g722_encode(mark, input, out, next)
}

#[unsafe(no_mangle)]
pub extern "C" fn rozimaha_g722_decode(
    mark: &[u8],
    input: &[u8],
    out: &mut [u8],
    next: &mut [u8],
) -> u32
    ensures value { result ≡ decode_call_number mark.now input.now out.old next.old }
    ensures out_after { out.new ≡ decode_call_out mark.now input.now out.old next.old }
    ensures next_after { next.new ≡ decode_call_mark mark.now input.now out.old next.old }
{
    calls::rozimaha_g722_decode(mark, input, out, next)
}

#[unsafe(no_mangle)]
pub extern "C" fn rozimaha_g722_begin_encoder(rate: u32, start: u32, mark: &mut [u8]) -> u32
    ensures value { result ≡ encoder_begin_number rate start mark.old }
    ensures mark_after { mark.new ≡ encoder_begin_mark rate start mark.old }
{
    calls::rozimaha_g722_begin_encoder(rate, start, mark)
}

#[unsafe(no_mangle)]
pub extern "C" fn rozimaha_g722_begin_decoder(rate: u32, start: u32, mark: &mut [u8]) -> u32
    ensures value { result ≡ decoder_begin_number rate start mark.old }
    ensures mark_after { mark.new ≡ decoder_begin_mark rate start mark.old }
{
    calls::rozimaha_g722_begin_decoder(rate, start, mark)
}
