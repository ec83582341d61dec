use cc_base::Rate;
use findings::{Kind45, Which};
use line21_codes::Chan;

#[test]
fn findings_have_the_reasons_40_to_46(rt: HostRuntime) {
    const FINDINGS: &[(Kind45, u8, &str)] = &[
        (
            Kind45::CounterJump {
                expected: 0,
                seen: 2,
            },
            40,
            "CounterJump",
        ),
        (
            Kind45::WrongCount {
                expected: 20,
                seen: 10,
            },
            41,
            "WrongCount",
        ),
        (Kind45::BufferFull(1), 42, "BufferFull"),
        (
            Kind45::GridDiffers(Which::Chan(Chan::Cc1)),
            43,
            "GridDiffers",
        ),
        (Kind45::GridDiffers(Which::Service(63)), 43, "GridDiffers"),
        (
            Kind45::WrongRate {
                expected: Rate::F2997,
                seen: Rate::F30,
            },
            44,
            "WrongRate",
        ),
        (Kind45::TwoPairs(2), 45, "TwoPairs"),
        (Kind45::EightBits, 46, "EightBits"),
    ];
    for &(kind, number, name) in FINDINGS {
        assert!(rt; kind.why().number() == number && kind.why().name() == name);
    }
}
