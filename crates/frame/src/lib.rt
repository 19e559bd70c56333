// The whole pass over a frame, and the track request with the verdict of the track's record.
#![tactic(auto)]

pub mod time;

ghost use Rattle.std.specs.Prelude.{◌≡◌, cond, ℕ, length};
ghost use Rattle.types.specs.Types.{frame_number};
ghost use Rattle.multitrack_media.specs.Answer.{track_info};
ghost use Rattle.frame.specs.Pass.{
  result_report,
  frame_class,
  pass_report,
  pass_output,
  verdict_number,
  record_verdict,
  request_verdict,
  track_answer,
};
ghost use Rattle.frame.specs.InPlace.{pass_placed, pass_payload};
ghost use Rattle.frame.specs.Reports.{bare_report, audio_report, video_report};

use crate::time::nanoseconds;
use delivery::DeliveryHint;
use exvideo::VideoHeaderResult;
use init_cache::head::TagHeader;
use init_cache::kind::CacheFrameKind;
use modex::{Peeled, PeeledInPlace};
use multitrack_media::TrackInfo;
use types::{ErrorCode, FrameType, PacketType};

// What the whole pass reports. The header's own error is in the header, and so is the pattern of its milliseconds.
// Kept (1): a refused pass reports its number, and 0 in every other place (refused_report, clause `report` of frame_pass).
#[derive(Clone, Copy, Debug, PartialEq, Eq)]
pub struct Report {
    pub error: ErrorCode,
    pub result_length: usize,
    pub header: TagHeader,
    pub composition_time_ns: i64,
    pub tracks: usize,
    pub records: usize,
    pub valid_records: usize,
    pub kind: CacheFrameKind,
    pub hint: DeliveryHint,
}

// What the whole pass without a copy reports, and where the result starts in the payload, at whose end it ends.
#[derive(Clone, Copy, Debug, PartialEq, Eq)]
pub struct Placed {
    pub report: Report,
    pub start: usize,
}

#[derive(Clone, Copy, Debug, PartialEq, Eq)]
pub enum Verdict {
    // The track has no record.
    NoRecord = 0,
    Valid = 1,
    Refused = 2,
}

#[derive(Clone, Copy, Debug, PartialEq, Eq)]
pub struct TrackAnswer {
    pub track: TrackInfo,
    pub verdict: Verdict,
}

impl From<Verdict> for u8 {
    ghost from_gives = { λ verdict number. number ≡ verdict_number verdict };

    fn from(verdict: Verdict) -> u8 {
        verdict as u8
    }
}

fn bare_report(error: ErrorCode, result_length: usize, composition_time_ns: i64) -> Report
    ensures { result ≡ bare_report error result_length composition_time_ns }
{
    Report {
        error,
        result_length,
        header: TagHeader::none(),
        composition_time_ns,
        tracks: 0,
        records: 0,
        valid_records: 0,
        kind: CacheFrameKind::LiveOnly,
        hint: DeliveryHint::Critical,
    }
}

// What is read off the bytes of audio: the whole report but for the length and the time. Hint and kind stand apart: side by side the compiler would read
// them as one word, and wait until each was written.
#[derive(Clone, Copy, Debug, PartialEq, Eq)]
pub struct AudioPart {
    pub header: TagHeader,
    pub hint: DeliveryHint,
    pub tracks: usize,
    pub records: usize,
    pub valid_records: usize,
    pub kind: CacheFrameKind,
}

// The same of video, with the header as it was parsed: the fields that only audio has would be zeros written, read and written again.
#[derive(Clone, Copy, Debug, PartialEq, Eq)]
pub struct VideoPart {
    pub parsed: VideoHeaderResult,
    pub hint: DeliveryHint,
    pub tracks: usize,
    pub records: usize,
    pub valid_records: usize,
    pub kind: CacheFrameKind,
}

// What hozgrim_classify answers.
#[derive(Clone, Copy, Debug, PartialEq, Eq)]
pub struct Class {
    pub kind: CacheFrameKind,
    pub hint: DeliveryHint,
}

#[tactic(auto, using(crate::proofs::Passes::report_audio))]
fn audio_part(res: &[u8], route_has_video: u32) -> AudioPart
    ensures { (offset : ℕ) → audio_report result (length res.now) offset ≡ result_report 0 route_has_video offset res.now }
{
    let seen = init_cache::seen::inspect_audio(res);
    let kind = seen.audio_kind();
    let hint = DeliveryHint::of_audio(seen, kind, route_has_video);
    AudioPart {
        header: seen.head.header,
        hint,
        tracks: seen.tracks,
        records: seen.records,
        valid_records: seen.valid_records,
        kind,
    }
}

// The route flag has no say in video. Kind and hint come first, here and above: a header that is made before them waits on the stack, and is read from there in
// other pieces than it was written in (docs/PERFORMANCE.md, "Loads that wait").
#[tactic(auto, using(crate::proofs::Passes::report_video))]
fn video_part(res: &[u8]) -> VideoPart
    ensures { (flag offset : ℕ) → video_report result (length res.now) offset ≡ result_report 1 flag offset res.now }
{
    let seen = init_cache::seen::inspect_video(res);
    let kind = seen.video_kind();
    let hint = DeliveryHint::of_video(seen, kind);
    VideoPart {
        parsed: VideoHeaderResult::from(seen.head.header),
        hint,
        tracks: seen.tracks,
        records: seen.records,
        valid_records: seen.valid_records,
        kind,
    }
}

// The header of audio has no time, so that it is the offset.
fn audio_report(part: AudioPart, result_length: usize, offset: u32) -> Report
    ensures { result ≡ audio_report part result_length offset }
{
    Report {
        error: ErrorCode::Ok,
        result_length,
        header: part.header,
        composition_time_ns: i64::from(offset),
        tracks: part.tracks,
        records: part.records,
        valid_records: part.valid_records,
        kind: part.kind,
        hint: part.hint,
    }
}

// The time is 0 milliseconds where the header is not readable.
fn video_report(part: VideoPart, result_length: usize, offset: u32) -> Report
    ensures { result ≡ video_report part result_length offset }
{
    Report {
        error: ErrorCode::Ok,
        result_length,
        header: TagHeader::from(part.parsed),
        composition_time_ns: nanoseconds(part.parsed.header.composition_time, offset),
        tracks: part.tracks,
        records: part.records,
        valid_records: part.valid_records,
        kind: part.kind,
        hint: part.hint,
    }
}

// Kind and hint of a payload as it is: nothing is peeled.
pub fn classify(frame_type: FrameType, payload: &[u8], route_has_video: u32) -> Class
    ensures { result ≡ frame_class (frame_number frame_type) route_has_video payload.now }
{
    match frame_type {
        FrameType::Audio => {
            let AudioPart { kind, hint, .. } = audio_part(payload, route_has_video);
            Class { kind, hint }
        }
        FrameType::Video => {
            let VideoPart { kind, hint, .. } = video_part(payload);
            Class { kind, hint }
        }
        FrameType::Script | FrameType::Metadata => Class {
            kind: CacheFrameKind::LiveOnly,
            hint: DeliveryHint::Critical,
        },
    }
}

// The whole pass over a frame of a known type. Types 2 and 3 are done before a result is looked at.
// Kept (5): the parameters of frame_pass.
fn known_pass(
    frame_type: FrameType,
    payload: &[u8],
    caps_ex_mask: u32,
    route_has_video: u32,
    output: &mut [u8],
) -> Report
    ensures report { result ≡ pass_report (frame_number frame_type) caps_ex_mask route_has_video payload.now (length output.old) }
    ensures output { output.new ≡ pass_output (frame_number frame_type) caps_ex_mask payload.now output.old }
{
    let peeled = modex::normalize_modex_payload_with_offset(
        payload,
        caps_ex_mask,
        frame_type,
        output,
    );
    let Peeled { length, offset } = match peeled {
        Ok(peeled) => peeled,
        Err(error) => return bare_report(error, 0, 0),
    };
    match frame_type {
        FrameType::Audio => audio_report(
            audio_part(&output[..length], route_has_video),
            length,
            offset,
        ),
        FrameType::Video => video_report(video_part(&output[..length]), length, offset),
        FrameType::Script | FrameType::Metadata => {
            bare_report(ErrorCode::Ok, length, i64::from(offset))
        }
    }
}

// The result, peeled or not, goes into the output, whose further bytes stay; then it is reported. Refused are, in this order: -21 a frame type above 3;
// -22 an output shorter than the result; -3 a type-0 layer of the peeled chain with under 3 data bytes or an offset over 999,999. A refusal leaves the output
// as it is.
// Kept (1, 5): the frame type is a number, since -21 is an answer of this call (clause `report`); payload, mask and type as in modex.
#[tactic(auto, using(crate::proofs::Passes::report_unknown, crate::proofs::Passes::output_unknown, types::proofs::Laws::known_type, types::proofs::Laws::unknown_type_lem))]
pub fn frame_pass(
    frame_type: u32,
    payload: &[u8],
    caps_ex_mask: u32,
    route_has_video: u32,
    output: &mut [u8],
) -> Report
    ensures report { result ≡ pass_report frame_type caps_ex_mask route_has_video payload.now (length output.old) }
    ensures output { output.new ≡ pass_output frame_type caps_ex_mask payload.now output.old }
{
    match FrameType::from_number(frame_type) {
        Ok(media) => known_pass(media, payload, caps_ex_mask, route_has_video, output),
        Err(error) => bare_report(error, 0, 0),
    }
}

// The same of a frame of a known type without a copy.
// Kept (5): the parameters of frame_pass_in_place.
fn known_pass_in_place(
    frame_type: FrameType,
    payload: &mut [u8],
    caps_ex_mask: u32,
    route_has_video: u32,
) -> Placed
    ensures placed { result ≡ pass_placed (frame_number frame_type) caps_ex_mask route_has_video payload.old }
    ensures payload { payload.new ≡ pass_payload (frame_number frame_type) caps_ex_mask payload.old }
{
    let peeled = modex::normalize_modex_payload_in_place(payload, caps_ex_mask, frame_type);
    let PeeledInPlace { start, offset } = match peeled {
        Ok(peeled) => peeled,
        Err(error) => {
            return Placed {
                report: bare_report(error, 0, 0),
                start: 0,
            };
        }
    };
    let length = payload.len() - start;
    let report = match frame_type {
        FrameType::Audio => audio_report(
            audio_part(&payload[start..], route_has_video),
            length,
            offset,
        ),
        FrameType::Video => video_report(video_part(&payload[start..]), length, offset),
        FrameType::Script | FrameType::Metadata => {
            bare_report(ErrorCode::Ok, length, i64::from(offset))
        }
    };
    Placed { report, start }
}

// The whole pass without a copy: the result stands at the payload's end, and only the last option byte of a chain that is peeled off changes. Refused are,
// in this order: -21 a frame type above 3; -3 as above. A refusal leaves the payload as it is, and start 0.
// Kept (1, 5): as frame_pass (clause `placed`).
#[tactic(auto, using(crate::proofs::InPlace::placed_unknown, types::proofs::Laws::known_type, types::proofs::Laws::unknown_type_lem))]
pub fn frame_pass_in_place(
    frame_type: u32,
    payload: &mut [u8],
    caps_ex_mask: u32,
    route_has_video: u32,
) -> Placed
    ensures placed { result ≡ pass_placed frame_type caps_ex_mask route_has_video payload.old }
    ensures payload { payload.new ≡ pass_payload frame_type caps_ex_mask payload.old }
{
    match FrameType::from_number(frame_type) {
        Ok(media) => known_pass_in_place(media, payload, caps_ex_mask, route_has_video),
        Err(error) => Placed {
            report: bare_report(error, 0, 0),
            start: 0,
        },
    }
}

// The verdict of the record in a track with this packet type, FourCC and body. Only a sequence start of audio or video has one.
// Kept (1): the packet type is the number that TrackInfo has; public, and PacketType in its place would ask each caller to wrap it.
#[tactic(auto, unfolding(crate::specs::Pass::record_verdict))]
pub fn record_verdict(
    frame_type: FrameType,
    packet_type: u8,
    fourcc: [u8; 4],
    body: &[u8],
) -> Verdict
    ensures { result ≡ record_verdict (frame_number frame_type) packet_type fourcc body.now }
{
    if frame_type.is_script_or_metadata() || PacketType(packet_type) != PacketType::SEQUENCE_START {
        Verdict::NoRecord
    } else if codec_config::sequence_start_config_valid(frame_type, fourcc, body) {
        Verdict::Valid
    } else {
        Verdict::Refused
    }
}

// The same of the track that was asked for.
#[tactic(auto, using(crate::proofs::Passes::verdict_refused, crate::proofs::Passes::asked_inside, crate::proofs::Passes::verdict_cut))]
fn request_verdict(
    frame_type: FrameType,
    payload: &[u8],
    number: usize,
    track: TrackInfo,
) -> Verdict
    requires { track ≡ track_info (frame_number frame_type) payload.now number }
    ensures { result ≡ request_verdict (frame_number frame_type) payload.now number }
{
    if !track.error.is_ok() {
        return Verdict::NoRecord;
    }
    let start = track.start;
    let end = start + track.length;
    let part = &payload[start..end];
    record_verdict(frame_type, track.packet_type, track.fourcc, part)
}

// Track `number` of a container with the verdict of its record. Refused are, in this order: -21 a frame type above 3; -24 anything but an accepted
// container; -23 a number that is not below the count.
// Kept (1): by number, since -21 is an answer of this call.
#[tactic(auto, using(crate::proofs::Passes::answered, crate::proofs::Passes::request_unknown, types::proofs::Laws::known_type, types::proofs::Laws::unknown_type_lem))]
pub fn track_request(frame_type: u32, payload: &[u8], number: usize) -> TrackAnswer
    ensures { result ≡ track_answer frame_type payload.now number }
{
    let track = multitrack_media::track_info(frame_type, payload, number);
    let verdict = match FrameType::from_number(frame_type) {
        Ok(media) => request_verdict(media, payload, number, track),
        Err(_) => Verdict::NoRecord,
    };
    TrackAnswer { track, verdict }
}
