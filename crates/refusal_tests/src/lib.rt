//! Refusals of the models, the trace call, the reader and replay, with what they leave of the caller's buffers.
#![tactic(auto)]

#[cfg(test)]
mod tests {
    use chips::chip::Chip;
    use chips::clock::ClockChip;
    use chips::fall::FallChip;
    use chips::model::check;
    use protocol::list::List;
    use protocol::refusal::{Cause, Refusal};
    use protocol::sample::Straps;
    use protocol::settings::{Cycles, Settings};
    use traces::entry::Entry;
    use traces::reader::read_trace;
    use traces::replay::replay;

    const CYCLES: Cycles = Cycles {
        write: 5,
        eral: 5,
        wrall: 5,
    };

    // The frame of WEN on a 46, and a small model below; another test crate has the like, and a crate for both would be longer.
    const WEN: [u8; 21] = [
        25, 29, 31, 25, 27, 25, 27, 29, 31, 29, 31, 25, 27, 25, 27, 25, 27, 25, 27, 25, 24,
    ];

    fn settings(part: u8, edition: u8) -> Settings {
        Settings {
            part,
            edition,
            cycles: CYCLES,
        }
    }

    // What a check refuses, or nothing.
    fn check_refusal(part: u8, edition: u8, size: usize) -> Option<Refusal> {
        check(settings(part, edition), size).err()
    }

    // A 46 of the fall edition.
    fn small<'a>(memory: &'a mut [u8], straps: Straps) -> FallChip<'a> {
        FallChip::new(memory, 46, CYCLES, straps)
    }

    #[test]
    fn checks(rt: HostRuntime) {
        assert_eq!(rt; check_refusal(46, 0, 128), None);
        assert_eq!(rt; check_refusal(86, 1, 2048), None);
        assert_eq!(rt; check_refusal(47, 0, 128), Some(Cause::BadSettings.at(0)));
        assert_eq!(rt; check_refusal(66, 1, 512), Some(Cause::BadSettings.at(0)));
        assert_eq!(rt; check_refusal(76, 2, 1024), Some(Cause::BadSettings.at(0)));
        assert_eq!(rt; check_refusal(46, 0, 127), Some(Cause::MemorySize.at(0)));
        assert_eq!(rt; check_refusal(47, 0, 127), Some(Cause::BadSettings.at(0)));
    }

    #[test]
    fn blank_does_nothing(rt: HostRuntime) {
        let mut memory = [7u8; 100];
        let mut levels = [9u8; 21];
        {
            let mut chip = small(&mut memory, Straps::HIGH);
            assert_eq!(rt; chip.facts(), (0, 0, 0));
            assert_eq!(rt; chip.put(true, false, false), 2);
            assert_eq!(rt;
                chip.run_trace(&WEN, &mut levels),
                Err(Cause::BlankChip.at(0))
            );
        }
        assert_eq!(rt; memory, [7u8; 100]);
        assert_eq!(rt; levels, [9u8; 21]);
    }

    #[test]
    fn facts_of_models(rt: HostRuntime) {
        let low = Straps {
            org: false,
            pe: false,
        };
        let mut memory = [0u8; 128];
        let mut large = [0u8; 1024];
        {
            let fall = small(&mut memory, low);
            assert_eq!(rt; fall.facts(), (46, 1, 1));
        }
        let clock = ClockChip::new(&mut large, 76, CYCLES, low);
        assert_eq!(rt; clock.facts(), (76, 0, 0));
    }

    #[test]
    fn trace_call_refuses(rt: HostRuntime) {
        let mut memory = [7u8; 128];
        let mut levels = [9u8; 3];
        let mut chip = small(&mut memory, Straps::HIGH);
        assert_eq!(rt;
            chip.run_trace(&[1, 32, 33], &mut levels),
            Err(Cause::HighSample.at(1))
        );
        assert_eq!(rt;
            chip.run_trace(&[1, 32], &mut levels),
            Err(Cause::HighSample.at(1))
        );
        assert_eq!(rt;
            chip.run_trace(&[1, 3], &mut levels),
            Err(Cause::BufferLength.at(0))
        );
        assert_eq!(rt; levels, [9u8; 3]);
        assert_eq!(rt; chip.run_trace(&[1, 3, 0], &mut levels), Ok(()));
        assert_eq!(rt; levels, [2u8; 3]);
    }

    #[test]
    fn reader_keeps_what_fits(rt: HostRuntime) {
        let mut room = [Entry::NONE; 1];
        let mut entries = List::new(&mut room);
        assert_eq!(rt;
            read_trace(settings(47, 0), &WEN, &mut entries),
            Err(Cause::BadSettings.at(0))
        );
        assert_eq!(rt; entries.len(), 0);
        assert_eq!(rt; read_trace(settings(46, 0), &WEN, &mut entries), Ok(()));
        assert_eq!(rt; entries.len(), 1);
        assert_eq!(rt;
            read_trace(settings(46, 0), &WEN, &mut entries),
            Err(Cause::NoRoom.at(20))
        );
        assert_eq!(rt; entries.len(), 1);
    }

    #[test]
    fn replay_refuses_in_order(rt: HostRuntime) {
        let mut memory = [7u8; 100];
        let mut levels = [9u8; 21];
        let mut room = [Entry::NONE; 0];
        let mut entries = List::new(&mut room);
        let bad = settings(47, 0);
        let good = settings(46, 0);
        assert_eq!(rt;
            replay(bad, &mut memory, &[40], &mut levels, &mut entries),
            Err(Cause::HighSample.at(0))
        );
        assert_eq!(rt;
            replay(bad, &mut memory, &[1], &mut levels, &mut entries),
            Err(Cause::BufferLength.at(0))
        );
        assert_eq!(rt;
            replay(bad, &mut memory, &WEN, &mut levels, &mut entries),
            Err(Cause::BadSettings.at(0))
        );
        assert_eq!(rt;
            replay(good, &mut memory, &WEN, &mut levels, &mut entries),
            Err(Cause::MemorySize.at(0))
        );
        assert_eq!(rt; memory, [7u8; 100]);
        let mut whole = [7u8; 128];
        assert_eq!(rt;
            replay(good, &mut whole, &WEN, &mut levels, &mut entries),
            Err(Cause::NoRoom.at(20))
        );
        assert_eq!(rt; whole, [7u8; 128]);
        assert_eq!(rt; levels, [9u8; 21]);
    }
}
