//! Histories of calls on the models, the refusals of every call, and frames as bytes.
#![tactic(auto)]

#[cfg(test)]
mod tests {
    use chips::chip::Chip;
    use chips::clock::ClockChip;
    use chips::fall::FallChip;
    use chips::model::Straps;
    use driver::driver::Driver;
    use frame_writer::write_frame;
    use histories::call::Call;
    use histories::perform::{perform, perform_next};
    use histories::told::Told;
    use protocol::instruction::Instruction;
    use protocol::list::List;
    use protocol::refusal::{Cause, Refusal};
    use protocol::settings::Cycles;
    use std::process::Abort;
    use std::test::Fail;

    const DONE: Result<(), Refusal> = Ok(());

    // Width 8 on an 86.
    const NARROW: Straps = Straps {
        org: false,
        pe: true,
    };

    const PROTECTED: Straps = Straps {
        org: true,
        pe: false,
    };

    // The frame of WEN on a 46, and a small model below; another test crate has the like, and a crate for both would be longer.
    const WEN: [u8; 21] = [
        25, 29, 31, 25, 27, 25, 27, 29, 31, 29, 31, 25, 27, 25, 27, 25, 27, 25, 27, 25, 24,
    ];

    // WRITE of 0x8001 into cell 5 of a 46: start bit, opcode, address, word.
    const WRITE: [bool; 25] = [
        true, false, true, false, false, false, true, false, true, true, false, false, false,
        false, false, false, false, false, false, false, false, false, false, false, true,
    ];

    fn cycles(length: u16) -> Cycles {
        Cycles {
            write: length,
            eral: length,
            wrall: length,
        }
    }

    // A 46 of the fall edition.
    fn small<'a>(memory: &'a mut [u8], length: u16) -> FallChip<'a> {
        FallChip::new(memory, 46, cycles(length), Straps::HIGH)
    }

    fn refused(cause: Cause) -> Result<(), Refusal> {
        Err(cause.into())
    }

    // Every kind of call, with a run that goes on from the last cell to cell 0, and a change of the chip when shut.
    fn table(before: u16, last: u16, word: u16, other: u16) -> [Call; 14] {
        [
            Call::Greet,
            Call::Open,
            Call::Write {
                address: last,
                value: word,
            },
            Call::Read { address: last },
            Call::Run {
                address: before,
                count: 4,
            },
            Call::Erase { address: last },
            Call::Read { address: last },
            Call::Fill { value: other },
            Call::Run {
                address: last,
                count: 2,
            },
            Call::Clear,
            Call::Read { address: 0 },
            Call::Shut,
            Call::Fill { value: 0 },
            Call::Settle,
        ]
    }

    // The answers to the table: only the fill of the shut chip is refused.
    fn expected() -> [Result<(), Refusal>; 14] {
        let mut answers = [DONE; 14];
        answers[12] = refused(Cause::Shut);
        answers
    }

    // The answers to the calls, with the words that they hand out.
    fn answers_of<C: Chip>(
        chip: &mut C,
        calls: [Call; 14],
        words: &mut [u16],
    ) -> [Result<(), Refusal>; 14] {
        let mut room = [refused(Cause::FileForm); 14];
        {
            let mut told = Told {
                answers: List::new(&mut room),
                words: List::new(words),
            };
            let _ = perform(chip, &calls, &mut told);
        }
        room
    }

    // The table on a chip: all its answers, and these words.
    fn check_history<C: Chip>(rt: &impl Abort, chip: &mut C, calls: [Call; 14], words: [u16; 9]) {
        let mut heard = [0; 9];
        assert_eq!(rt; answers_of(chip, calls, &mut heard), expected());
        assert_eq!(rt; heard, words);
    }

    // The words of the table at width 16.
    const WORDS: [u16; 9] = [
        0x1234, 0x035a, 0x1234, 0x0102, 0x5a5a, 0xffff, 0xa5a5, 0xa5a5, 0xffff,
    ];

    #[test]
    fn history_of_a_46(rt: HostRuntime) {
        let mut memory = [0x5a; 128];
        memory[0] = 1;
        memory[1] = 2;
        // cell 62 is bytes 124 and 125
        memory[124] = 3;
        let calls = table(62, 63, 0x1234, 0xa5a5);
        {
            let mut chip = small(&mut memory, 5);
            check_history(&rt, &mut chip, calls, WORDS);
        }
        assert_eq!(rt; memory, [0xff; 128]);
    }

    #[test]
    fn history_of_an_86(rt: HostRuntime) {
        let mut memory = [0x5a; 2048];
        memory[0] = 1;
        memory[1] = 2;
        // cell 1022 is bytes 2044 and 2045
        memory[2044] = 3;
        let calls = table(1022, 1023, 0x1234, 0xa5a5);
        {
            let mut chip = ClockChip::new(&mut memory, 86, cycles(5), Straps::HIGH);
            check_history(&rt, &mut chip, calls, WORDS);
        }
        assert_eq!(rt; memory, [0xff; 2048]);
    }

    #[test]
    fn history_of_a_narrow_86(rt: HostRuntime) {
        let mut memory = [0x5a; 2048];
        memory[0] = 1;
        memory[1] = 2;
        memory[2046] = 3;
        let calls = table(2046, 2047, 0x34, 0xa5);
        let words = [0x34, 3, 0x34, 1, 2, 0xff, 0xa5, 0xa5, 0xff];
        {
            let mut chip = ClockChip::new(&mut memory, 86, cycles(5), NARROW);
            check_history(&rt, &mut chip, calls, words);
        }
        assert_eq!(rt; memory, [0xff; 2048]);
    }

    // The calls that change no cell, without greet.
    fn others<C: Chip>(
        driver: &mut Driver<C>,
        address: u16,
        words: &mut [u16],
    ) -> [Result<(), Refusal>; 5] {
        [
            driver.settle(),
            driver.open(),
            driver.shut(),
            driver.read(address).map(|_| ()),
            driver.run(address, words),
        ]
    }

    fn changes<C: Chip>(
        driver: &mut Driver<C>,
        address: u16,
        value: u16,
    ) -> [Result<(), Refusal>; 4] {
        [
            driver.write(address, value),
            driver.erase(address),
            driver.fill(value),
            driver.clear(),
        ]
    }

    fn check_blank<C: Chip>(rt: &impl Abort, chip: &mut C, words: &mut [u16]) {
        let blank = refused(Cause::BlankChip);
        let mut driver = Driver::new(chip);
        assert_eq!(rt; driver.greet(), blank);
        assert_eq!(rt; others(&mut driver, 64, words), [blank; 5]);
        assert_eq!(rt; changes(&mut driver, 64, 0), [blank; 4]);
    }

    #[test]
    fn blank_is_refused(rt: HostRuntime) {
        let mut memory = [7; 100];
        let mut words = [9; 2];
        {
            let mut chip = small(&mut memory, 5);
            check_blank(&rt, &mut chip, &mut words);
        }
        assert_eq!(rt; words, [9; 2]);
        assert_eq!(rt; memory, [7; 100]);
    }

    // Before greet, so that the input comes before the state.
    fn check_input<C: Chip>(rt: &impl Abort, chip: &mut C, words: &mut [u16]) {
        let address = refused(Cause::Address);
        let value = refused(Cause::Value);
        let early = refused(Cause::NotGreeted);
        let mut driver = Driver::new(chip);
        assert_eq!(rt;
            others(&mut driver, 2048, words),
            [early, early, early, address, address]
        );
        assert_eq!(rt;
            changes(&mut driver, 2048, 256),
            [address, address, value, early]
        );
        assert_eq!(rt;
            changes(&mut driver, 2047, 256),
            [value, early, value, early]
        );
    }

    #[test]
    fn input_is_refused(rt: HostRuntime) {
        let mut memory = [7; 2048];
        let mut words = [9; 2];
        {
            let mut chip = ClockChip::new(&mut memory, 86, cycles(5), NARROW);
            check_input(&rt, &mut chip, &mut words);
        }
        assert_eq!(rt; words, [9; 2]);
        assert_eq!(rt; memory, [7; 2048]);
    }

    // A run of so many words by a driver that has greeted the chip.
    fn run<C: Chip>(chip: &mut C, address: u16, words: &mut [u16]) -> Result<(), Refusal> {
        let mut driver = Driver::new(chip);
        driver.greet()?;
        driver.run(address, words)
    }

    #[test]
    fn counts_are_refused(rt: HostRuntime) {
        let count = refused(Cause::WordCount);
        let mut memory = [7; 128];
        let mut none = [9; 0];
        let mut all = [9; 64];
        let mut more = [9; 65];
        let mut chip = small(&mut memory, 5);
        assert_eq!(rt; run(&mut chip, 63, &mut none), count);
        assert_eq!(rt; run(&mut chip, 63, &mut more), count);
        assert_eq!(rt; run(&mut chip, 64, &mut more), refused(Cause::Address));
        assert_eq!(rt; more, [9; 65]);
        assert_eq!(rt; run(&mut chip, 63, &mut all), DONE);
        assert_eq!(rt; all, [0x0707; 64]);
    }

    fn check_state<C: Chip>(rt: &impl Abort, chip: &mut C, words: &mut [u16]) -> Result<(), Fail> {
        let early = refused(Cause::NotGreeted);
        let shut = refused(Cause::Shut);
        let mut driver = Driver::new(chip);
        assert_eq!(rt; others(&mut driver, 0, words), [early; 5]);
        assert_eq!(rt; changes(&mut driver, 0, 0), [early; 4]);
        driver.greet()?;
        assert_eq!(rt; changes(&mut driver, 0, 0), [shut; 4]);
        driver.open()?;
        assert_eq!(rt; changes(&mut driver, 0, 0), [refused(Cause::Protected); 4]);
        driver.shut()?;
        assert_eq!(rt; changes(&mut driver, 0, 0), [shut; 4]);
        Ok(())
    }

    #[test]
    fn state_is_refused(rt: HostRuntime) -> Result<(), Fail> {
        let mut memory = [7; 2048];
        let mut words = [9; 2];
        {
            let mut chip = ClockChip::new(&mut memory, 86, cycles(5), PROTECTED);
            check_state(&rt, &mut chip, &mut words)?;
        }
        assert_eq!(rt; words, [9; 2]);
        assert_eq!(rt; memory, [7; 2048]);
        Ok(())
    }

    fn open<C: Chip>(chip: &mut C) -> Result<(), Refusal> {
        let mut driver = Driver::new(chip);
        driver.greet()?;
        driver.open()
    }

    // A write and two calls that wait.
    fn waits<C: Chip>(chip: &mut C) -> Result<[Result<(), Refusal>; 3], Refusal> {
        let mut driver = Driver::new(chip);
        driver.greet()?;
        driver.open()?;
        Ok([driver.write(5, 0x1234), driver.settle(), driver.settle()])
    }

    // On a 46 of the fall edition.
    fn fall_waits(length: u16) -> Result<[Result<(), Refusal>; 3], Refusal> {
        let mut memory = [0; 128];
        let mut chip = small(&mut memory, length);
        waits(&mut chip)
    }

    // On an 86 of the clock edition.
    fn clock_waits(length: u16) -> Result<[Result<(), Refusal>; 3], Refusal> {
        let mut memory = [0; 2048];
        let mut chip = ClockChip::new(&mut memory, 86, cycles(length), Straps::HIGH);
        waits(&mut chip)
    }

    // A polling has 4096 samples with CS high and one that ends it. In the fall edition the first follows the sample that
    // begins the cycle. In the clock edition two samples of the frame come between.
    #[test]
    fn cycles_are_waited_for(rt: HostRuntime) {
        let unfinished = refused(Cause::Unfinished);
        let late = [unfinished, DONE, DONE];
        assert_eq!(rt; fall_waits(4096), Ok([DONE; 3]));
        assert_eq!(rt; fall_waits(4097), Ok(late));
        assert_eq!(rt; fall_waits(5000), Ok(late));
        // the second polling ends at 4097 + 4096
        assert_eq!(rt; fall_waits(8193), Ok(late));
        assert_eq!(rt;
            fall_waits(8194),
            Ok([unfinished, refused(Cause::Busy), DONE])
        );
        assert_eq!(rt; clock_waits(4098), Ok([DONE; 3]));
        assert_eq!(rt; clock_waits(4099), Ok(late));
    }

    fn check_busy<C: Chip>(rt: &impl Abort, chip: &mut C) -> Result<(), Fail> {
        let mut words = [9; 2];
        let mut driver = Driver::new(chip);
        driver.greet()?;
        driver.open()?;
        assert_eq!(rt; driver.write(5, 0x1234), refused(Cause::Unfinished));
        assert_eq!(rt; driver.run(5, &mut words), refused(Cause::Busy));
        assert_eq!(rt; words, [9; 2]);
        assert_eq!(rt; driver.run(5, &mut words), DONE);
        assert_eq!(rt; words, [0x1234, 0]);
        Ok(())
    }

    #[test]
    fn busy_leaves_the_words(rt: HostRuntime) -> Result<(), Fail> {
        let mut memory = [0; 128];
        let mut chip = small(&mut memory, 8194);
        check_busy(&rt, &mut chip)
    }

    // A write, so many waits that are refused, and a call that is done.
    fn check_longest<C: Chip>(rt: &impl Abort, chip: &mut C, refusals: u8) -> Result<(), Fail> {
        let mut driver = Driver::new(chip);
        driver.greet()?;
        driver.open()?;
        assert_eq!(rt; driver.write(5, 0x1234), refused(Cause::Unfinished));
        for _ in 0..refusals {
            assert_eq!(rt; driver.settle(), refused(Cause::Busy));
        }
        assert_eq!(rt; driver.read(5), Ok(0x1234));
        Ok(())
    }

    // Polling number n ends at 4097 n - 1, so that the 15th ends at 61454 and the 16th at 65551. The first is that of the write.
    #[test]
    fn longest_cycle_ends(rt: HostRuntime) -> Result<(), Fail> {
        let mut memory = [0; 128];
        let mut chip = small(&mut memory, 65535);
        check_longest(&rt, &mut chip, 14)
    }

    // Each bit with SK low and then high.
    fn clock_in<C: Chip>(chip: &mut C, bits: &[bool]) {
        let _ = chip.put(true, false, false);
        for bit in bits {
            let _ = chip.put(true, false, *bit);
            let _ = chip.put(true, true, *bit);
        }
    }

    // What a new driver reads.
    fn meet<C: Chip>(chip: &mut C, address: u16) -> Result<u16, Refusal> {
        let mut driver = Driver::new(chip);
        driver.greet()?;
        driver.read(address)
    }

    // DO as CS falls and in two samples with CS high.
    fn fall<C: Chip>(chip: &mut C) -> [u8; 3] {
        [
            chip.put(false, false, false),
            chip.put(true, false, false),
            chip.put(true, false, false),
        ]
    }

    // That after a WRITE, and what a new driver then reads.
    fn status(length: u16) -> Result<([u8; 3], u16), Refusal> {
        let mut memory = [0; 128];
        let mut chip = small(&mut memory, length);
        open(&mut chip)?;
        clock_in(&mut chip, &WRITE);
        let levels = fall(&mut chip);
        let word = meet(&mut chip, 5)?;
        Ok((levels, word))
    }

    // A cycle that is over as CS rises shows no status, and the chip is ready.
    #[test]
    fn short_cycles_show_no_status(rt: HostRuntime) {
        assert_eq!(rt; status(0), Ok(([2, 2, 2], 0x8001)));
        assert_eq!(rt; status(1), Ok(([2, 2, 2], 0x8001)));
        assert_eq!(rt; status(2), Ok(([2, 0, 1], 0x8001)));
        assert_eq!(rt; status(3), Ok(([2, 0, 0], 0x8001)));
        assert_eq!(rt; fall_waits(1), Ok([DONE; 3]));
        assert_eq!(rt; clock_waits(1), Ok([DONE; 3]));
    }

    // What a new driver reads in cell 5 of an open chip that has been sent these bits and has CS still high.
    fn met(bits: &[bool]) -> Result<u16, Refusal> {
        let mut memory = [0x5a; 128];
        let mut chip = small(&mut memory, 5);
        open(&mut chip)?;
        clock_in(&mut chip, bits);
        meet(&mut chip, 5)
    }

    // Greet begins with CS low: too few bits are a wrong count, and a WRITE of the right length is carried out.
    #[test]
    fn hanging_chip_is_met(rt: HostRuntime) {
        assert_eq!(rt; met(&WRITE[0..12]), Ok(0x5a5a));
        assert_eq!(rt; met(&WRITE[0..24]), Ok(0x5a5a));
        assert_eq!(rt; met(&WRITE), Ok(0x8001));
    }

    // The cycle begins as greet takes CS low, and is one sample longer than its polling.
    #[test]
    fn busy_chip_is_met(rt: HostRuntime) -> Result<(), Fail> {
        let mut memory = [0; 128];
        let mut chip = small(&mut memory, 4097);
        open(&mut chip)?;
        clock_in(&mut chip, &WRITE);
        assert_eq!(rt; meet(&mut chip, 5), Err(Cause::Busy.into()));
        assert_eq!(rt; meet(&mut chip, 5), Ok(0x8001));
        Ok(())
    }

    // One word too few: nothing is done.
    #[test]
    fn history_without_room(rt: HostRuntime) {
        let mut memory = [7; 128];
        let mut words = [9; 8];
        {
            let mut chip = small(&mut memory, 5);
            let mut room = [DONE; 14];
            let mut told = Told {
                answers: List::new(&mut room),
                words: List::new(&mut words),
            };
            let calls = table(62, 63, 0x1234, 0xa5a5);
            assert_eq!(rt;
                perform(&mut chip, &calls, &mut told),
                refused(Cause::NoRoom)
            );
            assert_eq!(rt; (told.answers.len(), told.words.len()), (0, 0));
        }
        assert_eq!(rt; words, [9; 8]);
        assert_eq!(rt; memory, [7; 128]);
    }

    const MANY: usize = 65_536;

    // A run of more words than 65,535 with room for them is refused, and the read after it is performed.
    #[test]
    fn long_run_is_refused(rt: HostRuntime) -> Result<(), Fail> {
        let mut memory = [7; 128];
        let mut words = vec![in rt.alloc(); 9u16; MANY + 1]?;
        let mut room = [DONE; 3];
        let calls = [
            Call::Greet,
            Call::Run {
                address: 0,
                count: MANY,
            },
            Call::Read { address: 0 },
        ];
        let count = refused(Cause::WordCount);
        {
            let mut chip = small(&mut memory, 5);
            let mut told = Told {
                answers: List::new(&mut room),
                words: List::new(&mut words),
            };
            assert_eq!(rt; perform(&mut chip, &calls, &mut told), DONE);
            assert_eq!(rt; told.words.items(), [0x0707].as_slice());
        }
        assert_eq!(rt; room, [DONE, count, DONE]);
        assert_eq!(rt; words.get(1), Some(&9));
        Ok(())
    }

    // A run fills the last free places, and the read after it finds none.
    fn check_last_places<C: Chip>(rt: &impl Abort, chip: &mut C, told: &mut Told) {
        let run = Call::Run {
            address: 63,
            count: 4,
        };
        let mut driver = Driver::new(chip);
        assert_eq!(rt; perform_next(&mut driver, Call::Greet, told), DONE);
        assert_eq!(rt; perform_next(&mut driver, run, told), DONE);
        assert_eq!(rt; told.words.left(), 0);
        assert_eq!(rt;
            perform_next(&mut driver, Call::Read { address: 0 }, told),
            refused(Cause::NoRoom)
        );
        assert_eq!(rt; told.answers.items(), [DONE; 2].as_slice());
        assert_eq!(rt; told.words.items(), [0x0707; 4].as_slice());
        assert_eq!(rt; driver.get_ref().facts(), (46, 1, 1));
    }

    #[test]
    fn last_places_are_filled(rt: HostRuntime) {
        let mut memory = [7; 128];
        let mut words = [9; 4];
        let mut room = [DONE; 3];
        let mut chip = small(&mut memory, 5);
        let mut told = Told {
            answers: List::new(&mut room),
            words: List::new(&mut words),
        };
        check_last_places(&rt, &mut chip, &mut told);
    }

    // Greet and a run of four words: what `perform` answers, and how many answers and words there are.
    fn run_of_four<C: Chip>(
        chip: &mut C,
        words: &mut [u16],
    ) -> (Result<(), Refusal>, usize, usize) {
        let calls = [
            Call::Greet,
            Call::Run {
                address: 0,
                count: 4,
            },
        ];
        let mut room = [DONE; 2];
        let mut told = Told {
            answers: List::new(&mut room),
            words: List::new(words),
        };
        let answer = perform(chip, &calls, &mut told);
        (answer, told.answers.len(), told.words.len())
    }

    // One place too few: nothing is sent, so that CS is still high behind the WRITE.
    #[test]
    fn run_without_room(rt: HostRuntime) -> Result<(), Fail> {
        let mut memory = [0; 128];
        let mut words = [9; 3];
        let mut chip = small(&mut memory, 2);
        open(&mut chip)?;
        clock_in(&mut chip, &WRITE);
        assert_eq!(rt;
            run_of_four(&mut chip, &mut words),
            (refused(Cause::NoRoom), 0, 0)
        );
        assert_eq!(rt; words, [9; 3]);
        assert_eq!(rt; fall(&mut chip), [2, 0, 1]);
        Ok(())
    }

    fn read(address: u16, words: u16) -> Instruction {
        Instruction::Read { address, words }
    }

    fn write(address: u16, value: u16) -> Instruction {
        Instruction::Write { address, value }
    }

    #[test]
    fn frame_has_its_bytes(rt: HostRuntime) {
        let mut room = [9; 21];
        let mut samples = List::new(&mut room);
        assert_eq!(rt;
            write_frame(46, Straps::HIGH, Instruction::Wen, &mut samples),
            DONE
        );
        assert_eq!(rt; samples.items(), WEN.as_slice());
        assert_eq!(rt;
            write_frame(46, Straps::HIGH, Instruction::Wen, &mut samples),
            refused(Cause::NoRoom)
        );
        assert_eq!(rt; samples.items(), WEN.as_slice());
    }

    // At width 8 on an 86, with the list too short for any frame.
    #[test]
    fn frames_are_refused_in_order(rt: HostRuntime) {
        let mut room = [9; 20];
        {
            let mut samples = List::new(&mut room);
            let answer = write_frame(47, NARROW, write(2048, 256), &mut samples);
            assert_eq!(rt; answer, refused(Cause::BadSettings));
            let answer = write_frame(86, NARROW, write(2048, 256), &mut samples);
            assert_eq!(rt; answer, refused(Cause::Address));
            let answer = write_frame(86, NARROW, write(2047, 256), &mut samples);
            assert_eq!(rt; answer, refused(Cause::Value));
            let answer = write_frame(86, NARROW, read(2048, 0), &mut samples);
            assert_eq!(rt; answer, refused(Cause::Address));
            let answer = write_frame(86, NARROW, read(2047, 0), &mut samples);
            assert_eq!(rt; answer, refused(Cause::WordCount));
            let answer = write_frame(86, NARROW, read(2047, 2049), &mut samples);
            assert_eq!(rt; answer, refused(Cause::WordCount));
            let answer = write_frame(86, NARROW, read(2047, 2048), &mut samples);
            assert_eq!(rt; answer, refused(Cause::NoRoom));
            assert_eq!(rt; samples.len(), 0);
        }
        assert_eq!(rt; room, [9; 20]);
    }
}
