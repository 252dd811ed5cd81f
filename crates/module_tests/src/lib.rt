// The module by example: each refusal with its number and what it leaves, the supply, the word layout, and a trip.
#![tactic(auto)]

#[cfg(test)]
mod tests {
    use axis::AxisFault;
    use coil::{CoilFault, CoilId};
    use drivers::PulseDriver;
    use module::{Fault, Module, Preparation, Running};
    use refusal::{Refusal, answer_number};
    use std::process::Abort;
    use std::test::Fail;
    use step_axis::StepAxis;

    type Prepared = Module<Preparation, StepAxis, PulseDriver>;

    type Started = Module<Running, StepAxis, PulseDriver>;

    fn prepare() -> Prepared {
        Module::new(PulseDriver::new(0, 0))
    }

    // Starts the module, lets it run, and ends it whatever that gave. The checks of a spare have one too, and it is no call
    // of a module, since a public call asks nothing of its caller.
    fn while_running<T, F: FnOnce(&mut Started) -> T>(prepared: Prepared, run: F) -> T
        requires { F.IsAlwaysCallable run }
    {
        let mut module = prepared.start();
        let given = run(&mut module);
        let _driver = module.end();
        given
    }

    // One cycle with a word for each motor; gives the answer.
    // The checks of a spare have one too; with theirs these tests would be proved again at each change of check or law.
    fn send(module: &mut Started, first: u16, second: u16) -> Result<[u8; 16], Refusal> {
        let [a, b] = first.to_le_bytes();
        let [c, d] = second.to_le_bytes();
        let mut answer = [0; 16];
        module.cycle(
            &[a, b, 0, 0, 0, 0, 0, 0, c, d, 0, 0, 0, 0, 0, 0],
            &mut answer,
        )?;
        Ok(answer)
    }

    fn refuse_in_preparation(rt: &impl Abort, module: &mut Prepared) -> Result<(), Fail> {
        assert_eq!(rt; answer_number(module.setting(33, 50)), 0);
        assert_eq!(rt; answer_number(module.setting(304, 1)), 1);
        assert_eq!(rt; answer_number(module.setting(0, 1)), 1);
        assert_eq!(rt; answer_number(module.setting(33, 168)), 3);
        assert_eq!(rt; answer_number(module.setting(33, -1)), 3);
        assert_eq!(rt; answer_number(module.setting(46, 0x0818)), 3);
        Ok(())
    }

    // The holding points are as they were before the refusals, and one word counts, of 8 microsteps a step.
    fn refuse_while_running(rt: &impl Abort, module: &mut Started) -> Result<(), Fail> {
        assert_eq!(rt; answer_number(module.setting(33, 50)), 0);
        assert_eq!(rt; answer_number(module.setting(46, 0x0800)), 2);
        assert_eq!(rt; answer_number(module.setting(46, 0x0818)), 2);
        send(module, 0x4001, 0x0000)?;
        assert_eq!(rt; module.points(1), Ok(50));
        assert_eq!(rt; module.count(1), Ok(8));
        send(module, 0x8000, 0x0000)?;
        assert_eq!(rt; answer_number(module.setting(33, 60)), 4);
        assert_eq!(rt; answer_number(module.setting(33, 168)), 3);
        assert_eq!(rt; answer_number(module.setting(36, 60)), 0);
        send(module, 0x4000, 0x0000)?;
        assert_eq!(rt; module.points(1), Ok(50));
        Ok(())
    }

    #[test]
    fn settings_are_refused_in_preparation(rt: HostRuntime) -> Result<(), Fail> {
        let mut prepared = prepare();
        let refused = refuse_in_preparation(&rt, &mut prepared);
        let _driver = prepared.end();
        refused
    }

    #[test]
    fn settings_are_refused_while_running(rt: HostRuntime) -> Result<(), Fail> {
        while_running(prepare(), |module| refuse_while_running(&rt, module))
    }

    fn refuse_cycles(rt: &impl Abort, module: &mut Started) -> Result<(), Fail> {
        let mut answer = [7; 16];
        let mut short = [7; 15];
        assert_eq!(rt; answer_number(module.cycle(&[0; 15], &mut answer)), 5);
        assert_eq!(rt; answer_number(module.cycle(&[0; 17], &mut answer)), 5);
        assert_eq!(rt; answer, [7; 16]);
        assert_eq!(rt; answer_number(module.cycle(&[0; 16], &mut short)), 6);
        assert_eq!(rt; answer_number(module.cycle(&[0; 15], &mut short)), 5);
        assert_eq!(rt; short, [7; 15]);
        Ok(())
    }

    fn refuse_motors(rt: &impl Abort, module: &mut Started) -> Result<(), Fail> {
        for motor in [0, 3] {
            assert_eq!(rt; answer_number(module.report(motor, 1)), 7);
            assert_eq!(rt; answer_number(module.acknowledge(motor)), 7);
            assert_eq!(rt; module.count(motor), Err(Refusal::UnknownMotor));
            assert_eq!(rt; module.points(motor), Err(Refusal::UnknownMotor));
            assert_eq!(rt; module.flags(motor), Err(Refusal::UnknownMotor));
            assert!(rt; module.latest_fault(motor).is_err());
        }
        assert_eq!(rt; answer_number(module.report(1, 16)), 8);
        assert_eq!(rt; answer_number(module.report(3, 16)), 7);
        assert_eq!(rt; module.flags(1), Ok(0));
        assert_eq!(rt; module.flags(2), Ok(0));
        Ok(())
    }

    #[test]
    fn cycles_are_refused(rt: HostRuntime) -> Result<(), Fail> {
        while_running(prepare(), |module| refuse_cycles(&rt, module))
    }

    #[test]
    fn motors_and_flags_are_refused(rt: HostRuntime) -> Result<(), Fail> {
        while_running(prepare(), |module| refuse_motors(&rt, module))
    }

    fn share(rt: &impl Abort, module: &mut Started) -> Result<(), Fail> {
        assert_eq!(rt; answer_number(module.setting(34, 160)), 0);
        assert_eq!(rt; answer_number(module.setting(37, 108)), 0);
        send(module, 0x8000, 0x8000)?;
        assert_eq!(rt; module.points(1), Ok(160));
        assert_eq!(rt; module.points(2), Ok(107));
        Ok(())
    }

    #[test]
    fn supply_is_shared(rt: HostRuntime) -> Result<(), Fail> {
        while_running(prepare(), |module| share(&rt, module))
    }

    // The count of motor 1 after four words of one step each, with this configuration.
    fn count_after_four(configuration: i32) -> Result<u32, Refusal> {
        let mut prepared = prepare();
        let set = prepared.setting(46, configuration);
        let orders = [1, 128, 1, 128, 1, 128, 1, 128, 0, 0, 0, 0, 0, 0, 0, 0];
        let count = while_running(prepared, |module| {
            module.cycle(&orders, &mut [0; 16])?;
            module.count(1)
        });
        set.and(count)
    }

    fn wrap(rt: &impl Abort, module: &mut Started) -> Result<(), Fail> {
        let back = send(module, 0xA001, 0x0000)?;
        assert_eq!(rt; back, [255, 255, 0, 2, 0, 0, 0, 0, 0, 0, 0, 0, 0, 0, 0, 0]);
        assert_eq!(rt; module.count(1), Ok(4_294_967_288));
        let forth = send(module, 0x8001, 0x0000)?;
        assert_eq!(rt; forth, [0, 0, 0, 2, 0, 0, 0, 0, 0, 0, 0, 0, 0, 0, 0, 0]);
        assert_eq!(rt; module.count(1), Ok(0));
        Ok(())
    }

    #[test]
    fn words_move_counts_and_positions(rt: HostRuntime) -> Result<(), Fail> {
        assert_eq!(rt; count_after_four(0x0800), Ok(8));
        assert_eq!(rt; count_after_four(0x0808), Ok(16));
        assert_eq!(rt; count_after_four(0x0810), Ok(32));
        assert_eq!(rt; count_after_four(0x0868), Ok(2));
        assert_eq!(rt; count_after_four(0x0870), Ok(4));
        while_running(prepare(), |module| wrap(&rt, module))
    }

    #[test]
    fn each_resolution_scales_the_count(rt: HostRuntime) {
        assert_eq!(rt; count_after_four(0x0800), Ok(8));
        assert_eq!(rt; count_after_four(0x0820), Ok(4));
        assert_eq!(rt; count_after_four(0x0840), Ok(2));
    }

    fn trip(rt: &impl Abort, module: &mut Started) -> Result<(), Fail> {
        assert_eq!(rt; answer_number(module.report(1, 8)), 0);
        let answer = send(module, 0x8005, 0x8005)?;
        assert_eq!(rt; answer, [0, 0, 8, 0, 0, 0, 0, 0, 5, 0, 0, 2, 0, 0, 0, 0]);
        assert_eq!(rt; module.count(1), Ok(0));
        assert_eq!(rt; module.count(2), Ok(40));
        assert!(rt;
            matches!(
                module.latest_fault(1),
                Ok(Some(Fault {
                    motor: CoilId::First,
                    cycle: 1,
                    cause: AxisFault::Coil(CoilFault::Tripped(8)),
                }))
            )
        );
        assert!(rt; matches!(module.latest_fault(2), Ok(None)));
        assert_eq!(rt; answer_number(module.acknowledge(1)), 0);
        assert_eq!(rt; module.flags(1), Ok(0));
        assert!(rt; matches!(module.latest_fault(1), Ok(Some(_))));
        Ok(())
    }

    #[test]
    fn trip_leaves_a_fault(rt: HostRuntime) -> Result<(), Fail> {
        while_running(prepare(), |module| trip(&rt, module))
    }
}
