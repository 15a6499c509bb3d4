//! What no clause says: that the calls which take memory succeed.

ghost use Rattle.std.specs.Prelude.{◌<◌};

use m3_base::command::{Answer, Command};
use m3_base::ids::{ActId, EpId, GrantId, TileId};
use m3_base::memory_streams::{BytesSink, BytesSource, InfallibleSink, InfallibleSource};
use m3_base::order::GrantLine;
use m3_base::packet::Perm;
use m3_base::payload::{Name, Payload};
use m3_base::setup::{Setup, SetupRefusal};
use m3_base::setup_line::{ProgramKind, SetupLine};
use m3_base::standard_streams::{ReaderSource, WriterSink};
use m3_base::stream::{ReadRefusal, read_all, write_all};

fn act(number: u8) -> ActId
    requires { number < 64 }
{
    ActId::new(number)
}

#[test]
fn a_setup_takes_lines_that_keep_its_rules(rt: HostRuntime) {
    let alloc = rt.alloc();
    let mut setup = Setup::new(alloc, 4, 4096).expect(&rt, "four tiles are fine");
    let grant = GrantId::new(1);
    let ep = EpId::new(0);
    let receives = SetupLine::Grant(GrantLine::Recv {
        act: act(1),
        ep,
        slots: 2,
        size: 16,
    });
    let sends = SetupLine::Grant(GrantLine::Send {
        act: act(0),
        ep,
        of: grant,
        label: 7,
        credits: 2,
    });
    let far = SetupLine::Act {
        act: act(0),
        tile: TileId::new(9),
    };
    let first = SetupLine::Act {
        act: act(0),
        tile: TileId::new(2),
    };
    let second = SetupLine::Act {
        act: act(1),
        tile: TileId::new(3),
    };
    let awaits = SetupLine::AwaitItem(act(1), ep);
    assert_eq!(rt; setup.add(far), Err(SetupRefusal::Rule));
    assert_eq!(rt; setup.add(first), Ok(()));
    assert_eq!(rt; setup.add(second), Ok(()));
    assert_eq!(rt; setup.add(receives), Ok(()));
    assert_eq!(rt; setup.add(sends), Ok(()));
    assert_eq!(rt; setup.add(awaits), Ok(()));
    assert_eq!(rt; setup.lines().len(), 5);
    assert_eq!(rt; setup.home(act(1)), Some(TileId::new(3)));
    assert_eq!(rt; setup.program(act(1)), ProgramKind::Listed);
    assert_eq!(rt; setup.program(act(0)), ProgramKind::Absent);
}

#[test]
fn values_are_copied(rt: HostRuntime) {
    let alloc = rt.alloc();
    let bytes = vec![in alloc; 1, 2, 3].expect(&rt, "memory");
    let mut payload = Payload::new(bytes);
    payload.bytes_mut()[0] = 9;
    let copy = payload.copy(alloc).expect(&rt, "memory");
    assert_eq!(rt; copy.bytes(), [9, 2, 3].as_slice());
    let command = Command::Write {
        ep: EpId::new(2),
        off: 5,
        payload: copy,
    };
    let again = command.copy(alloc).expect(&rt, "memory");
    assert!(rt; matches!(again, Command::Write { off: 5, .. }));
    let answer = Answer::Bytes(payload).copy(alloc).expect(&rt, "memory");
    assert!(rt; matches!(answer, Answer::Bytes(_)));
    let name = Name::new(vec![in alloc; b'a', b'.'].expect(&rt, "memory"));
    assert_eq!(rt; name.text(), "a.");
}

#[test]
fn all_bytes_come_and_go(rt: HostRuntime) {
    let alloc = rt.alloc();
    let bytes = vec![in alloc; 1, 2, 3, 4, 5].expect(&rt, "memory");
    let mut source = BytesSource::new(bytes, 2, Vec::new(alloc));
    let read = read_all(alloc, &mut source, 5).expect(&rt, "five bytes fit");
    assert_eq!(rt; read.as_slice(), [1, 2, 3, 4, 5].as_slice());
    let mut sink = BytesSink::new(alloc, 8, 3, Vec::new(alloc)).expect(&rt, "memory");
    write_all(&mut sink, read.as_slice()).expect(&rt, "eight bytes have room");
    assert_eq!(rt; sink.bytes(), [1, 2, 3, 4, 5].as_slice());
    let mut long = InfallibleSource::new(read, 4);
    let refused = read_all(alloc, &mut long, 4);
    assert!(rt; matches!(refused, Err(ReadRefusal::TooLong)));
    let mut sure = InfallibleSink::new(alloc, 2, 9).expect(&rt, "memory");
    write_all(&mut sure, &[7, 8]).expect(&rt, "it never fails");
    assert!(rt; sure.bytes().is_some());
    write_all(&mut sure, &[9]).expect(&rt, "it never fails");
    assert!(rt; sure.bytes().is_none());
}

#[test]
fn ends_fail_where_they_are_told(rt: HostRuntime) {
    let alloc = rt.alloc();
    let bytes = vec![in alloc; 1, 2, 3].expect(&rt, "memory");
    let mut source = BytesSource::new(bytes, 1, vec![in alloc; 2].expect(&rt, "memory"));
    let refused = read_all(alloc, &mut source, 5);
    assert!(rt; matches!(refused, Err(ReadRefusal::ReadFault)));
    let mut small = BytesSink::new(alloc, 2, 1, Vec::new(alloc)).expect(&rt, "memory");
    assert!(rt; write_all(&mut small, &[1, 2, 3]).is_err());
    assert_eq!(rt; small.bytes(), [1, 2].as_slice());
    let text: &[u8] = b"to the end";
    let mut reader = ReaderSource::new(text);
    let read = read_all(alloc, &mut reader, 99).expect(&rt, "ten bytes fit");
    assert_eq!(rt; read.len(), 10);
    let mut writer = WriterSink::new(Vec::new(alloc));
    write_all(&mut writer, read.as_slice()).expect(&rt, "memory");
    let perm = Perm::R;
    assert!(rt; perm.is_within(Perm::Rw));
}
