// The track request, held against stored answers. The stored part is that of the payload with the stored start and length.
use super::compared::Compared;
use super::input::Input;
use super::print::magnitude;
use frame::TrackAnswer;
use std::io;
use std::io::Read;

// The answer in the order of a row.
fn numbers_of(TrackAnswer { track, verdict }: TrackAnswer) -> [u64; 9] {
    [
        magnitude(track.error),
        track.count as u64,
        u64::from(track.track_id),
        u64::from(track.packet_type),
        u64::from(u32::from_be_bytes(track.fourcc)),
        u64::from(track.video_frame_type),
        track.start as u64,
        track.length as u64,
        u64::from(u8::from(verdict)),
    ]
}

// Empty where the payload ends before.
fn part(payload: &[u8], start: u64, length: u64) -> &[u8] {
    payload
        .get(start as usize..)
        .and_then(|rest| rest.get(..length as usize))
        .unwrap_or(&[])
}

// Whether the answer and the track's body are the stored ones.
pub(crate) fn same_track<T: Copy + Into<u64>>(
    compared: Compared<impl Print + Copy>,
    numbers: &[T; 9],
    answer: TrackAnswer,
    payload: &[u8],
    body: &[u8],
) -> io::Result<bool> {
    let same_answer = compared.numbers(0, numbers, &numbers_of(answer))?;
    let stored = part(payload, numbers[6].into(), numbers[7].into());
    let same_part = compared.bytes(0, stored, body)?;
    Ok(same_answer && same_part)
}

// The answer stands behind the payload.
pub(crate) fn run(
    compared: Compared<impl Print + Copy>,
    input: &mut Input<impl Eprint + Drop, impl Read>,
    frame_type: u32,
    track: u32,
    payload: &[u8],
) -> io::Result<Option<bool>> {
    let mut numbers = [0u32; 9];
    if !input.numbers(&mut numbers) {
        return Ok(None);
    }
    let answer = frame::track_request(frame_type, payload, track as usize);
    let body = multitrack_media::track_payload(frame_type, payload, track as usize);
    let alike = same_track(compared, &numbers, answer, payload, body)?;
    Ok(Some(alike))
}
