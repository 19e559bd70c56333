// The whole pass, held against stored reports and outputs; and the same without a copy, held against stored payloads too.
use super::compared::Compared;
use super::input::Input;
use super::print::magnitude;
use frame::Report;
use std::io;
use std::io::Read;

// The report in the order of a row. The time has 64 bits, a number of a row 32.
pub(crate) fn numbers_of(report: Report) -> [u64; 20] {
    let header = report.header;
    let time = report.composition_time_ns.cast_unsigned();
    [
        magnitude(report.error),
        report.result_length as u64,
        magnitude(header.error),
        u64::from(header.is_ex_header),
        u64::from(header.packet_type),
        u64::from(u32::from_be_bytes(header.fourcc)),
        header.header_size as u64,
        u64::from(header.frame_type),
        time / 4294967296,
        time % 4294967296,
        u64::from(u8::from(header.audio_codec)),
        u64::from(header.sample_rate),
        u64::from(header.sample_size),
        u64::from(header.channels),
        u64::from(header.aac_packet_type),
        report.tracks as u64,
        report.records as u64,
        report.valid_records as u64,
        u64::from(u8::from(report.kind)),
        u64::from(report.hint.to_u8()),
    ]
}

// The route flag, the report and the output stand behind the payload.
pub(crate) fn run(
    compared: Compared<impl Print + Copy>,
    input: &mut Input<impl Eprint + Drop, impl Read>,
    frame_type: u32,
    mask: u32,
    payload: &[u8],
    output: &mut [u8],
    stored: &mut [u8],
) -> io::Result<Option<bool>> {
    let mut flag = [0u32];
    let mut numbers = [0u32; 20];
    if !(input.numbers(&mut flag) && input.numbers(&mut numbers) && input.bytes(stored)) {
        return Ok(None);
    }
    let [route_has_video] = flag;
    let report = frame::frame_pass(frame_type, payload, mask, route_has_video, output);
    let same_report = compared.numbers(0, &numbers, &numbers_of(report))?;
    let same_output = compared.bytes(0, stored, output)?;
    Ok(Some(same_report && same_output))
}

// The route flag, the report, the start and the payload afterwards stand behind the payload.
pub(crate) fn run_in_place(
    compared: Compared<impl Print + Copy>,
    input: &mut Input<impl Eprint + Drop, impl Read>,
    frame_type: u32,
    mask: u32,
    payload: &mut [u8],
    stored: &mut [u8],
) -> io::Result<Option<bool>> {
    let mut flag = [0u32];
    let mut numbers = [0u32; 20];
    let mut start = [0u32];
    if !(input.numbers(&mut flag)
        && input.numbers(&mut numbers)
        && input.numbers(&mut start)
        && input.bytes(stored))
    {
        return Ok(None);
    }
    let [route_has_video] = flag;
    let placed = frame::frame_pass_in_place(frame_type, payload, mask, route_has_video);
    let got = numbers_of(placed.report);
    let same_report = compared.numbers(0, &numbers, &got)?;
    let same_start = compared.numbers(got.len(), &start, &[placed.start as u64])?;
    let same_payload = compared.bytes(0, stored, payload)?;
    Ok(Some(same_report && same_start && same_payload))
}
