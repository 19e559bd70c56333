// Structural validation of codec configuration records. Nothing is decoded: the length fields must stay inside the record, and no parameter set may
// be empty or name another type than the list that it is in.
#![tactic(auto)]

ghost use Rattle.std.specs.Prelude.{◌≡◌, ◌+◌, ◌*◌, ◌≤◌, length, IfSome};
ghost use Rattle.wire.specs.Grammar.{accepted};
ghost use Rattle.types.specs.Types.{frame_number};
ghost use Rattle.codec_config.specs.Records.{
  avc_extension,
  avc_picture_sets,
  set_seen,
  frequency_valid,
  record_valid,
  fourcc_codec,
  from_fourcc,
  start_codec,
  config_codec_number,
};
ghost use Rattle.codec_config.specs.Positions.{names_type, set_end, sets_end, accepted_at};
ghost use Rattle.codec_config.specs.Heads.{av1, opus_head, flac_head};
ghost use Rattle.codec_config.specs.CodecClaims.{mapping_fits};

use types::FrameType;

// The rule that judges a record. The Rust has the first three; the sequence start of audio adds the others.
#[derive(Clone, Copy, Debug, PartialEq, Eq)]
pub enum ConfigCodec {
    Avc = 0,
    Hevc = 1,
    // Any other codec: only a non-empty record is required.
    Opaque = 2,
    Aac = 3,
    // Opaque, or empty.
    Opus = 4,
}

impl ConfigCodec {
    #[tactic(auto, unfolding(crate::specs::Records::from_fourcc, fourcc::specs::Fourcc::fourcc_parse))]
    pub fn from_fourcc(fourcc: &[u8]) -> ConfigCodec
        ensures { result ≡ from_fourcc fourcc.now }
    {
        fourcc::fourcc_parse(fourcc).map_or(ConfigCodec::Opaque, fourcc_codec)
    }
}

impl From<ConfigCodec> for u8 {
    ghost from_gives = { λ codec number. number ≡ config_codec_number codec };

    fn from(codec: ConfigCodec) -> u8 {
        codec as u8
    }
}

#[tactic(auto, unfolding(crate::specs::Records::fourcc_codec, fourcc::specs::Fourcc::same_fourcc))]
fn fourcc_codec(fourcc: [u8; 4]) -> ConfigCodec
    ensures { result ≡ fourcc_codec fourcc }
{
    if fourcc == *b"avc1" {
        ConfigCodec::Avc
    } else if fourcc == *b"hvc1" {
        ConfigCodec::Hevc
    } else {
        ConfigCodec::Opaque
    }
}

#[tactic(auto, using(crate::proofs::Rules::no_walk))]
pub fn validate_config_record(codec: ConfigCodec, rec: &[u8]) -> bool
    ensures { result ≡ record_valid codec rec.now }
{
    match codec {
        ConfigCodec::Avc => validate_avc_record(rec),
        ConfigCodec::Hevc => validate_hevc_record(rec),
        ConfigCodec::Opaque => !rec.is_empty(),
        ConfigCodec::Aac => validate_aac_config(rec),
        ConfigCodec::Opus => true,
    }
}

// ISO/IEC 14496-3 AudioSpecificConfig: the audio object type, sampling-frequency index (or explicit frequency) and channel configuration must all be
// present. The first 16 bits hold the object type, and the index wherever it begins.
#[tactic(auto, using(crate::proofs::Aac::by_type))]
pub fn validate_aac_config(rec: &[u8]) -> bool
    ensures { result ≡ record_valid ConfigCodec.Aac rec.now }
{
    let bits = wire::be16_at(rec, 0);
    match bits / 2048 {
        0 => false,
        31 => frequency_valid(bits / 2 % 16, 11, rec.len()),
        _ => frequency_valid(bits / 128 % 16, 5, rec.len()),
    }
}

// A frequency index that begins at bit `at`, in a record of `size` bytes: it is followed by 4 channel bits, and after 15 by 24 bits more.
#[tactic(auto, using(crate::proofs::Aac::fit), unfolding(crate::specs::Records::frequency_valid))]
fn frequency_valid(index: usize, at: u8, size: usize) -> bool
    ensures { result ≡ frequency_valid index at size }
{
    let bits = usize::from(at) + 8;
    match index {
        13 | 14 => false,
        15 => (bits + 24).div_ceil(8) <= size,
        _ => bits.div_ceil(8) <= size,
    }
}

// The nal_unit_type that the first byte of a parameter set must name. The codec says in which bits.
// Kept (1): two codecs, each with a type: neither is the absence of the other, so an Option is no plainer.
#[derive(Clone, Copy, Debug, PartialEq, Eq)]
enum SetType {
    Avc(u8),
    Hevc(u8),
}

fn names_type(set_type: SetType, first: u8) -> bool
    ensures { result ≡ names_type set_type first }
{
    match set_type {
        SetType::Avc(wanted) => first % 32 == wanted,
        SetType::Hevc(wanted) => first / 2 % 64 == wanted,
    }
}

// Skips the 16-bit length and the bytes of a non-empty parameter set of this type at `pos`. A set takes three bytes or more, so one test shows whether its
// length and its first byte are there.
#[tactic(auto, unfolding(crate::specs::Positions::set_end))]
fn skip_param_set(rec: &[u8], pos: usize, set_type: SetType) -> Option<usize>
    requires { 3 ≤ length rec.now }
    ensures meaning { result ≡ set_end (names_type set_type) rec.now pos }
    ensures onward { IfSome result (λ end. (pos + 3 ≤ end) × (end ≤ length rec.now)) }
{
    if rec.len() - 3 < pos {
        return None;
    }
    let len = wire::be16_at(rec, pos);
    let end = pos + 2 + len;
    if len == 0 || rec.len() < end || !names_type(set_type, rec[pos + 2]) {
        return None;
    }
    Some(end)
}

// Skips `count` parameter sets of this type from `start` on.
#[tactic(auto, using(crate::proofs::Sets::turns))]
fn skip_param_sets(rec: &[u8], start: usize, count: usize, set_type: SetType) -> Option<usize>
    requires { 3 ≤ length rec.now }
    ensures meaning { result ≡ sets_end (names_type set_type) count rec.now start }
    ensures onward { IfSome result (λ end. (start + 3 * count ≤ end) × (start ≤ length rec.now → end ≤ length rec.now)) }
{
    let mut pos = start;
    for _ in 0..count {
        pos = skip_param_set(rec, pos, set_type)?;
    }
    Some(pos)
}

const AVC_NAL_SPS: u8 = 7;

const AVC_NAL_PPS: u8 = 8;

const AVC_NAL_SPS_EXT: u8 = 13;

// ISO/IEC 14496-15 AVCDecoderConfigurationRecord: version 1, at least one SPS and one PPS, every parameter set non-empty, fully contained and of its
// list's type.
#[tactic(auto, using(crate::proofs::Avc::avc_at))]
pub fn validate_avc_record(rec: &[u8]) -> bool
    ensures { result ≡ record_valid ConfigCodec.Avc rec.now }
{
    let [1, _, _, _, _, counts, ..] = rec else {
        return false;
    };
    let num_sps = usize::from(*counts % 32);
    let sps = skip_param_sets(rec, 6, num_sps, SetType::Avc(AVC_NAL_SPS));
    num_sps != 0 && sps.is_some_and(|pos| validate_avc_pps(rec, pos))
}

// The PPS list at `pos`, and what follows it.
#[tactic(auto, using(crate::proofs::Avc::pictures_at))]
fn validate_avc_pps(rec: &[u8], pos: usize) -> bool
    requires { 3 ≤ length rec.now }
    ensures { result ≡ accepted_at avc_picture_sets rec.now pos }
{
    let Some(count) = rec.get(pos) else {
        return false;
    };
    let num_pps = usize::from(*count);
    let pps = skip_param_sets(rec, pos + 1, num_pps, SetType::Avc(AVC_NAL_PPS));
    num_pps != 0 && pps.is_some_and(|end| validate_avc_extension(rec, end))
}

// What follows the PPS list: nothing, since some encoders omit it, or a complete section of chroma format, two bit depths, a count and its parameter
// sets.
#[tactic(auto, using(crate::proofs::Avc::extension_at))]
fn validate_avc_extension(rec: &[u8], pos: usize) -> bool
    ensures { result ≡ accepted_at avc_extension rec.now pos }
{
    match rec.get(pos..) {
        None | Some([]) => true,
        Some([_, _, _, count, ..]) => {
            let num_sps_ext = usize::from(*count);
            skip_param_sets(rec, pos + 4, num_sps_ext, SetType::Avc(AVC_NAL_SPS_EXT)).is_some()
        }
        Some(_) => false,
    }
}

const HEVC_FIXED_HEADER: usize = 22;

const HEVC_NAL_SPS: u8 = 33;

const HEVC_NAL_PPS: u8 = 34;

// Whether a parameter set of the wanted type was seen, before or in an array of `count`.
#[tactic(auto, unfolding(crate::specs::Records::set_seen))]
fn set_seen(before: bool, wanted: u8, nal_type: u8, count: usize) -> bool
    ensures { result ≡ set_seen before wanted nal_type count }
{
    before || nal_type == wanted && 0 < count
}

// ISO/IEC 14496-15 HEVCDecoderConfigurationRecord: version 1, every array of parameter sets fully contained with non-empty entries of the array's
// type, and at least one SPS and one PPS overall (a missing VPS is tolerated, as some encoders omit it).
#[tactic(auto, using(crate::proofs::Hevc::hevc_at))]
// Not inlined, so that a start of another codec saves no registers for its loop.
#[inline(never)]
pub fn validate_hevc_record(rec: &[u8]) -> bool
    ensures { result ≡ record_valid ConfigCodec.Hevc rec.now }
{
    if rec.len() <= HEVC_FIXED_HEADER || rec[0] != 1 {
        return false;
    }
    let mut pos = HEVC_FIXED_HEADER + 1;
    let mut sps = false;
    let mut pps = false;
    for _ in 0..rec[HEVC_FIXED_HEADER] {
        // An array begins with its type and the number of its sets, three bytes.
        if rec.len() - 3 < pos {
            return false;
        }
        let nal_type = rec[pos] % 64;
        let num_nalus = wire::be16_at(rec, pos + 1);
        sps = set_seen(sps, HEVC_NAL_SPS, nal_type, num_nalus);
        pps = set_seen(pps, HEVC_NAL_PPS, nal_type, num_nalus);
        let Some(next) = skip_param_sets(rec, pos + 3, num_nalus, SetType::Hevc(nal_type)) else {
            return false;
        };
        pos = next;
    }
    sps && pps
}

// AV1CodecConfigurationRecord: four bytes or more, the first of which has marker 1 and version 1.
#[tactic(auto, using(crate::proofs::Av1::av1_exactly))]
pub fn validate_av1_record(rec: &[u8]) -> bool
    ensures { result ≡ accepted (av1 rec.now) }
{
    matches!(rec, [0x81, _, _, _, ..])
}

// RFC 7845 identification header: its letters, major version 0, at least one channel, and as many channels and bytes as its mapping family asks for.
#[tactic(auto, using(crate::proofs::Opus::opus_head_at))]
pub fn validate_opus_record(rec: &[u8]) -> bool
    ensures { result ≡ accepted (opus_head rec.now) }
{
    rec.len() >= 19
        && rec.starts_with(b"OpusHead")
        && rec[8] / 16 == 0
        && rec[9] != 0
        && mapping_fits(rec[18], rec[9], rec.len())
}

// Whether a mapping family may have so many channels, and the header has room for its channel mapping.
#[tactic(auto, unfolding(crate::specs::CodecClaims::mapping_fits))]
fn mapping_fits(family: u8, channels: u8, size: usize) -> bool
    ensures { result ≡ mapping_fits family channels size }
{
    let room = usize::from(channels) + 21 <= size;
    match family {
        0 => channels <= 2,
        1 => channels <= 8 && room,
        _ => room,
    }
}

// RFC 9639: the letters, and a STREAMINFO block of 34 bytes, which may be the last one or not.
#[tactic(auto, using(crate::proofs::Flac::flac_tests))]
pub fn validate_flac_record(rec: &[u8]) -> bool
    ensures { result ≡ accepted (flac_head rec.now) }
{
    rec.len() >= 42 && rec.starts_with(b"fLaC") && rec[4] % 128 == 0 && wire::be24_at(rec, 5) == 34
}

// In audio, enhanced AAC has the same AudioSpecificConfig bytes as the legacy tag, and Enhanced RTMP v2 allows an empty Opus record.
#[tactic(auto, unfolding(crate::specs::Records::start_codec, fourcc::specs::Fourcc::same_fourcc))]
pub fn sequence_start_codec(frame_type: FrameType, fourcc: [u8; 4]) -> ConfigCodec
    ensures { result ≡ start_codec (frame_number frame_type) fourcc }
{
    match frame_type {
        FrameType::Audio if fourcc == *b"mp4a" => ConfigCodec::Aac,
        FrameType::Audio if fourcc == *b"Opus" => ConfigCodec::Opus,
        _ => fourcc_codec(fourcc),
    }
}

// Whether a sequence start carries a record that the init cache may store.
pub fn sequence_start_config_valid(frame_type: FrameType, fourcc: [u8; 4], rec: &[u8]) -> bool
    ensures { result ≡ record_valid (start_codec (frame_number frame_type) fourcc) rec.now }
{
    validate_config_record(sequence_start_codec(frame_type, fourcc), rec)
}
