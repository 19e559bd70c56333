// FourCC codec names: four bytes by value, and the audio codec table.
#![tactic(auto)]

ghost use Rattle.std.specs.Prelude.{◌≡◌};
ghost use Rattle.fourcc.specs.Fourcc.{
  fourcc_at,
  same_fourcc,
  fourcc_parse,
  codec_answer,
  audio_codec,
  audio_codec_numbers,
  fourcc_to_audio_codec,
  fourcc_to_audio_numbers,
};

use types::{AudioCodec, ErrorCode};

const AUDIO_FOURCCS: [[u8; 4]; 7] = [
    *b"Opus", *b"mp4a", *b"mp3 ", *b".mp3", *b"ac-3", *b"ec-3", *b"fLaC",
];

// The codec of each entry of AUDIO_FOURCCS. AC-3, E-AC-3 and FLAC have no AudioCodec of their own.
const AUDIO_CODECS: [AudioCodec; 7] = [
    AudioCodec::Opus,
    AudioCodec::Aac,
    AudioCodec::Mp3,
    AudioCodec::Mp3,
    AudioCodec::Aac,
    AudioCodec::Aac,
    AudioCodec::Aac,
];

// The four bytes from a position on.
#[tactic(auto, using(crate::proofs::Laws::fourcc_past), unfolding(crate::specs::Fourcc::fourcc_at))]
pub fn fourcc_at(payload: &[u8], at: usize) -> [u8; 4]
    ensures { result ≡ fourcc_at payload.now at }
{
    if payload.len() <= at {
        return [0; 4];
    }
    [
        payload[at],
        wire::byte_at(payload, at + 1),
        wire::byte_at(payload, at + 2),
        wire::byte_at(payload, at + 3),
    ]
}

// Kept (4): public and named in docs/REQUIREMENTS.md.
#[tactic(auto, using(crate::proofs::Laws::four_equal))]
pub fn same_fourcc(a: [u8; 4], b: [u8; 4]) -> bool
    ensures { result ≡ same_fourcc a b }
{
    a == b
}

#[tactic(auto, unfolding(crate::specs::Fourcc::fourcc_parse))]
pub fn fourcc_parse(payload: &[u8]) -> Result<[u8; 4], ErrorCode>
    ensures { result ≡ fourcc_parse payload.now }
{
    if payload.len() < 4 {
        return Err(ErrorCode::Io);
    }
    Ok(fourcc_at(payload, 0))
}

// The audio codec that four bytes name.
pub fn audio_codec(fourcc: [u8; 4]) -> Result<AudioCodec, ErrorCode>
    ensures meaning { result ≡ audio_codec fourcc }
    ensures numbers { codec_answer result ≡ audio_codec_numbers fourcc }
{
    for (i, entry) in AUDIO_FOURCCS.iter().enumerate() {
        if same_fourcc(*entry, fourcc) {
            return Ok(AUDIO_CODECS[i]);
        }
    }
    Err(ErrorCode::Chunk)
}

#[tactic(auto, unfolding(crate::specs::Fourcc::fourcc_to_audio_codec, crate::specs::Fourcc::fourcc_to_audio_numbers))]
pub fn fourcc_to_audio_codec(fourcc: &[u8]) -> Result<AudioCodec, ErrorCode>
    ensures meaning { result ≡ fourcc_to_audio_codec fourcc.now }
    ensures numbers { codec_answer result ≡ fourcc_to_audio_numbers fourcc.now }
{
    if fourcc.len() < 4 {
        return Err(ErrorCode::Chunk);
    }
    audio_codec(fourcc_at(fourcc, 0))
}
