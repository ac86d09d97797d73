//! Records, byte by byte.

use rvm_link::{
    MAX_DATA, RecordFault, RecordRead, read_record, write_answer, write_data, write_question,
};
use std::test::Fail;

/// Three bytes of data, question 258, and the answer to it.
static RECORDS: [u8; 24] = [
    0, 3, 0, 7, 8, 9, //
    1, 2, 1, 0, 0, 0, 0, 0, 0, //
    2, 2, 1, 0, 0, 0, 0, 0, 0,
];

#[test]
fn records_are_written_and_read(rt: HostRuntime) -> Result<(), Fail> {
    let mut room = [0u8; 24];
    let mut output = room.as_mut_slice();
    write_data(&mut output, &[7, 8, 9])?;
    write_question(&mut output, 258)?;
    write_answer(&mut output, 258)?;
    assert!(rt; room.as_slice() == RECORDS.as_slice());
    let mut input = RECORDS.as_slice();
    let mut buffer = [0u8; MAX_DATA];
    assert!(rt; read_record(&mut input, &mut buffer) == Ok(RecordRead::Data(3)));
    assert!(rt; buffer.starts_with(&[7, 8, 9]));
    assert!(rt; read_record(&mut input, &mut buffer) == Ok(RecordRead::Question(258)));
    assert!(rt; read_record(&mut input, &mut buffer) == Ok(RecordRead::Answer(258)));
    assert!(rt; read_record(&mut input, &mut buffer) == Err(RecordFault::Broken));
    Ok(())
}

#[test]
fn long_data_goes_out_in_pieces(rt: HostRuntime) -> Result<(), Fail> {
    let mut output = Vec::new(rt.alloc());
    write_data(&mut output, &[5; 65537])?;
    assert!(rt; output.len() == 65543);
    assert!(rt; output.starts_with(&[0, 255, 255, 5]));
    assert!(rt; output.ends_with(&[5, 0, 2, 0, 5, 5]));
    Ok(())
}
