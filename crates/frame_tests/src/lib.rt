// Examples of the frame library, worked out by hand from the format in docs/PROTOCOL.md.
#![tactic(auto)]

#[cfg(test)]
mod tests {
    use frame::{
        Body, Channel, FRAME_LENGTH, FrameFault, Message, NodeId, Request, highest, highest_id,
        read_frame, worked_frame, write_frame,
    };
    use std::test::Fail;

    const CHANNEL: Channel = Channel {
        ring_id: 1,
        vid: 100,
    };

    // Offsets 0 to 29 of the worked frame, written out by hand.
    const WORKED: [u8; 30] = [
        0x01, 0x19, 0xA7, 0x00, 0x00, 0x01, 0x00, 0x00, 0x5E, 0x00, 0x53, 0x01, 0x81, 0x00, 0xE0,
        0x64, 0x89, 0x02, 0xE1, 0x28, 0x00, 0x20, 0xB0, 0x20, 0x00, 0x00, 0x5E, 0x00, 0x53, 0x01,
    ];

    // IDs, addresses and damaged frames are built in each crate of examples anew, since none stands on another.
    fn id(last: u8) -> NodeId {
        NodeId {
            octets: [0x00, 0x00, 0x5E, 0x00, 0x53, last],
        }
    }

    // The worked frame with one octet changed.
    fn damaged(offset: usize, octet: u8) -> [u8; FRAME_LENGTH] {
        let mut frame = worked_frame();
        if let Some(place) = frame.get_mut(offset) {
            *place = octet;
        }
        frame
    }

    // The number and the octet of the reader's refusal; none where it reads.
    fn refusal(frame: &[u8]) -> Option<(u8, usize)> {
        let fault = read_frame(frame, CHANNEL).err()?;
        Some((fault.number(), fault.octet()?))
    }

    #[test]
    fn the_worked_frame(rt: HostRuntime) {
        let frame = worked_frame();
        assert!(rt; frame.starts_with(&WORKED));
        assert!(rt; frame[30..].iter().all(|octet| *octet == 0));
    }

    #[test]
    fn reads_it_back(rt: HostRuntime) -> Result<(), Fail> {
        let Ok(message) = read_frame(&worked_frame(), CHANNEL) else {
            return Err(Fail::new("refused"));
        };
        assert_eq!(rt; u64::from(message.node), 0x0000_5E00_5301);
        assert_eq!(rt;
            message.body,
            Body::Signal {
                request: Request::SignalFail,
                dnf: false,
                bpr: true,
            }
        );
        Ok(())
    }

    #[test]
    fn each_refusal_of_the_reader(rt: HostRuntime) {
        assert_eq!(rt; refusal(&worked_frame()[0..54]), Some((1, 54)));
        assert_eq!(rt; refusal(&damaged(13, 0x01)), Some((2, 13)));
        assert_eq!(rt; refusal(&damaged(15, 0x65)), Some((2, 15)));
        assert_eq!(rt; refusal(&damaged(19, 0x29)), Some((3, 19)));
        assert_eq!(rt; refusal(&damaged(21, 31)), Some((4, 21)));
        assert_eq!(rt; refusal(&damaged(22, 0xC0)), Some((5, 22)));
        assert_eq!(rt; refusal(&damaged(22, 0xE1)), Some((5, 22)));
        assert_eq!(rt; refusal(&damaged(21, 33)), Some((6, 21)));
    }

    #[test]
    fn the_writer_refuses_and_leaves_the_buffer(rt: HostRuntime) {
        let message = Message {
            node: id(1),
            body: Body::Event,
        };
        let mut short = [0xAA; 54];
        assert_eq!(rt;
            write_frame(message, CHANNEL, 7, &mut short),
            Err(FrameFault::Buffer)
        );
        assert_eq!(rt;
            write_frame(message, CHANNEL, 8, &mut short),
            Err(FrameFault::Settings)
        );
        assert_eq!(rt; short, [0xAA; 54]);
    }

    #[test]
    fn the_writer_keeps_what_follows(rt: HostRuntime) {
        let message = Message {
            node: id(1),
            body: Body::Event,
        };
        let mut long = [0xAA; 57];
        assert!(rt; write_frame(message, CHANNEL, 7, &mut long).is_ok());
        assert_eq!(rt; long[22], 0xE0);
        assert_eq!(rt; long[23], 0x00);
        assert_eq!(rt; long[54], 0x00);
        assert_eq!(rt; long[55], 0xAA);
        assert_eq!(rt; long[56], 0xAA);
    }

    #[test]
    fn the_first_of_the_highest(rt: HostRuntime) {
        assert_eq!(rt; highest_id(&[id(5), id(9), id(3), id(9)]), Some(1));
        assert_eq!(rt; highest::<NodeId>(&[id(7)]), Some(0));
        assert_eq!(rt; highest_id(&[]), None);
    }
}
