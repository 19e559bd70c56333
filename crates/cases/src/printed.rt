// The operations whose answers are printed: the operation, its error number, and what it gave.
use super::print::{Hex, parts};
use super::times::run_split;
use delivery::DeliveryHint;
use std::io;
use types::{FrameType, Modex};

fn run_frame_type(rt: &impl Print, n: u32) -> io::Result<()> {
    match FrameType::from_number(n) {
        Ok(t) => print!(rt; "frame type 0 {}", u32::from(t)),
        Err(e) => print!(rt; "frame type {}", i32::from(e)),
    }
}

fn run_fourcc(rt: &impl Print, s: &[u8]) -> io::Result<()> {
    let (error, fourcc) = parts(fourcc::fourcc_parse(s));
    print!(rt; "fourcc_parse {error} {}", Hex(&fourcc))?;
    match fourcc::fourcc_to_audio_codec(s) {
        Ok(c) => print!(rt; " fourcc_to_audio_codec 0 {}", u8::from(c)),
        Err(e) => print!(rt; " fourcc_to_audio_codec {}", i32::from(e)),
    }
}

// The output is shown whole: what was written, and what was kept.
fn run_peel(
    rt: &impl Print,
    frame_type: FrameType,
    mask: u32,
    payload: &[u8],
    output: &mut [u8],
) -> io::Result<()> {
    let peeled = modex::normalize_modex_payload_with_frame_type(payload, mask, frame_type, output);
    print!(rt; "normalize_modex_payload_with_frame_type")?;
    match peeled {
        Ok(n) => print!(rt; " 0 {n}")?,
        Err(e) => print!(rt; " {}", i32::from(e))?,
    }
    print!(rt; " {}", Hex(output))
}

fn run_modex(rt: &impl Print, payload: &[u8]) -> io::Result<()> {
    let r = modex::modex_parse_prefix(Modex::default(), payload);
    let m = r.modex;
    let kind = u8::from(m.modex_type);
    print!(rt;
        "modex_parse_prefix {} {} {kind}",
        i32::from(r.error),
        r.consumed
    )?;
    print!(rt; " {} {}", m.offset, m.next_packet_type)
}

fn run_video(rt: &impl Print, payload: &[u8]) -> io::Result<()> {
    let r = exvideo::exvideo_parse(payload);
    let h = r.header;
    print!(rt; "exvideo_parse {} {}", i32::from(r.error), Hex(&h.fourcc))?;
    print!(rt; " {} {} {}", h.is_ex_header, h.packet_type, h.frame_type)?;
    print!(rt; " {} {}", h.composition_time, h.header_size)
}

fn run_audio(rt: &impl Print, payload: &[u8]) -> io::Result<()> {
    let (error, h) = parts(exaudio::exaudio_parse(payload));
    let codec = u8::from(h.audio_codec);
    print!(rt; "exaudio_parse {error} {}", Hex(&h.fourcc))?;
    print!(rt; " {} {} {codec}", h.is_ex_header, h.packet_type)?;
    print!(rt; " {} {} {}", h.sample_rate, h.sample_size, h.channels)?;
    print!(rt; " {} {}", h.aac_packet_type, h.header_size)
}

// What is looked at, and 1 for yes or 0 for no.
fn verdict(rt: &impl Print, what: &str, valid: bool) -> io::Result<()> {
    print!(rt; "{what} {}", u8::from(valid))
}

fn run_record(rt: &impl Print, rec: &[u8]) -> io::Result<()> {
    verdict(
        rt,
        "validate_avc_record",
        codec_config::validate_avc_record(rec),
    )?;
    verdict(
        rt,
        " validate_hevc_record",
        codec_config::validate_hevc_record(rec),
    )?;
    verdict(
        rt,
        " validate_aac_config",
        codec_config::validate_aac_config(rec),
    )
}

// The payload is a FourCC and a record.
fn run_start(rt: &impl Print, frame_type: FrameType, payload: &[u8]) -> io::Result<()> {
    let what = "sequence_start_config_valid";
    if payload.len() < 4 {
        return print!(rt; "{what}");
    }
    let fourcc = fourcc::fourcc_at(payload, 0);
    let valid = codec_config::sequence_start_config_valid(frame_type, fourcc, &payload[4..]);
    verdict(rt, what, valid)
}

fn first_track(rt: &impl Print, frame_type: FrameType, payload: &[u8]) -> io::Result<()> {
    let first = multitrack_media::first_track_fourcc(frame_type, payload);
    verdict(rt, " first_track_fourcc", first.is_some())?;
    print!(rt; " {}", Hex(&first.unwrap_or_default()))
}

fn container_kind(rt: &impl Print, frame_type: FrameType, payload: &[u8]) -> io::Result<()> {
    let has_start = multitrack_media::multitrack_has_sequence_start(frame_type, payload);
    verdict(rt, " multitrack_has_sequence_start", has_start)?;
    let has_metadata = multitrack_media::multitrack_has_metadata(frame_type, payload);
    verdict(rt, " multitrack_has_metadata", has_metadata)?;
    let has_keyframe = multitrack_media::multitrack_has_keyframe(payload);
    verdict(rt, " multitrack_has_keyframe", has_keyframe)
}

fn track(rt: &impl Print, frame_type: u32, n: usize, payload: &[u8]) -> io::Result<()> {
    let info = multitrack_media::track_info(frame_type, payload, n);
    print!(rt;
        " track {} {} {}",
        i32::from(info.error),
        info.count,
        info.track_id
    )?;
    print!(rt; " {} {}", info.packet_type, Hex(&info.fourcc))?;
    print!(rt; " {} {}", info.video_frame_type, info.start)
}

fn run_container(rt: &impl Print, frame_type: FrameType, n: u32, payload: &[u8]) -> io::Result<()> {
    let is_container = multitrack_media::is_multitrack_container(frame_type, payload);
    verdict(rt, "is_multitrack_container", is_container)?;
    first_track(rt, frame_type, payload)?;
    container_kind(rt, frame_type, payload)?;
    track(rt, u32::from(frame_type), n as usize, payload)?;
    let body = multitrack_media::track_payload(u32::from(frame_type), payload, n as usize);
    print!(rt; " {}", Hex(body))
}

fn run_descriptor(rt: &impl Print, payload: &[u8]) -> io::Result<()> {
    let r = multitrack::multitrack_parse(payload);
    let m = r.multitrack;
    let kind = u8::from(m.track_type);
    print!(rt;
        "multitrack_parse {} {} {kind}",
        i32::from(r.error),
        Hex(&m.track_name)
    )
}

// The number is the route flag.
fn run_classify(
    rt: &impl Print,
    frame_type: FrameType,
    flag: u32,
    payload: &[u8],
) -> io::Result<()> {
    let kind = init_cache::kind::classify_cache_frame(frame_type, payload);
    print!(rt; "classify_cache_frame {}", u8::from(kind))?;
    let hint = DeliveryHint::classify(frame_type, payload, flag);
    print!(rt; " DeliveryHint::classify {}", hint.to_u8())
}

// The number is the frame type.
fn run_level(rt: &impl Print, frame_type: u32, payload: &[u8]) -> io::Result<()> {
    let (error, level) = parts(g711::level(frame_type, payload));
    print!(rt; "level {error} {level}")
}

pub(crate) fn run(
    rt: &impl Print,
    op: u8,
    frame_type: FrameType,
    n: u32,
    payload: &[u8],
    output: &mut [u8],
) -> io::Result<()> {
    match op {
        b'P' => run_peel(rt, frame_type, n, payload, output),
        b'T' => run_frame_type(rt, n),
        b'F' => run_fourcc(rt, payload),
        b'M' => run_modex(rt, payload),
        b'V' => run_video(rt, payload),
        b'A' => run_audio(rt, payload),
        b'R' => run_record(rt, payload),
        b'S' => run_start(rt, frame_type, payload),
        b'C' => run_container(rt, frame_type, n, payload),
        b'D' => run_descriptor(rt, payload),
        b'K' => run_classify(rt, frame_type, n, payload),
        b'E' => run_level(rt, n, payload),
        b'I' => run_split(rt, payload),
        _ => print!(rt; "unknown operation"),
    }
}
