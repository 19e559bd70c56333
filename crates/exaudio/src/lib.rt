// The audio tag header.
#![tactic(auto)]

ghost use Rattle.std.specs.Prelude.{◌≡◌, ◌/◌};
ghost use Rattle.exaudio.specs.Audio.{sound_format, legacy_header, enhanced_header, audio_header};

use types::{AudioCodec, AudioHeader, ErrorCode};

// SoundFormat of an enhanced header (ExHeader), and of AAC.
const SOUND_FORMAT_EX_HEADER: u8 = 9;

const SOUND_FORMAT_AAC: u8 = 10;

// Opus is only signalled by its FourCC: legacy 14 is MP3 at 8 kHz.
#[tactic(auto, unfolding(crate::specs::Audio::sound_format))]
fn sound_format(format: u8) -> Result<AudioCodec, ErrorCode>
    ensures { result ≡ sound_format format }
{
    match format {
        0 => Ok(AudioCodec::Pcm),
        1 => Ok(AudioCodec::Adpcm),
        2 => Ok(AudioCodec::Mp3),
        3 => Ok(AudioCodec::PcmLe),
        4 => Ok(AudioCodec::Nelly16k),
        5 => Ok(AudioCodec::Nelly8k),
        6 => Ok(AudioCodec::Nelly),
        7 => Ok(AudioCodec::G711A),
        8 => Ok(AudioCodec::G711U),
        10 => Ok(AudioCodec::Aac),
        11 => Ok(AudioCodec::Speex),
        14 => Ok(AudioCodec::Mp3),
        _ => Err(ErrorCode::Unsupported),
    }
}

#[tactic(auto, unfolding(crate::specs::Audio::sound_format, crate::specs::Audio::legacy_header))]
fn parse_legacy(tag: u8, payload: &[u8]) -> Result<AudioHeader, ErrorCode>
    ensures { result ≡ legacy_header tag payload.now (sound_format (tag / 16)) }
{
    let header = AudioHeader {
        audio_codec: sound_format(tag / 16)?,
        sample_rate: tag / 4 % 4,
        sample_size: tag / 2 % 2,
        channels: tag % 2,
        header_size: 1,
        ..AudioHeader::default()
    };
    if tag / 16 != SOUND_FORMAT_AAC || payload.len() < 2 {
        return Ok(header);
    }
    Ok(AudioHeader {
        aac_packet_type: payload[1],
        header_size: 2,
        ..header
    })
}

// A truncated enhanced header is refused, and not read as a legacy one.
#[tactic(auto, unfolding(crate::specs::Audio::enhanced_header))]
fn parse_enhanced(tag: u8, payload: &[u8]) -> Result<AudioHeader, ErrorCode>
    ensures { result ≡ enhanced_header tag payload.now }
{
    if payload.len() < 5 {
        return Err(ErrorCode::Io);
    }
    let fourcc = fourcc::fourcc_at(payload, 1);
    Ok(AudioHeader {
        is_ex_header: 1,
        packet_type: tag % 16,
        fourcc,
        audio_codec: fourcc::audio_codec(fourcc).unwrap_or_default(),
        header_size: 5,
        ..AudioHeader::default()
    })
}

// Inlined: a Result with a header in it goes through memory where a function returns it.
#[tactic(auto, unfolding(crate::specs::Audio::audio_header))]
#[inline(always)]
pub fn exaudio_parse(payload: &[u8]) -> Result<AudioHeader, ErrorCode>
    ensures { result ≡ audio_header payload.now }
{
    let [tag, ..] = *payload else {
        return Err(ErrorCode::Io);
    };
    if tag / 16 == SOUND_FORMAT_EX_HEADER {
        parse_enhanced(tag, payload)
    } else {
        parse_legacy(tag, payload)
    }
}
