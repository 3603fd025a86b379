// Examples of the ring library, worked out by hand from docs/RING.md.
#![tactic(auto)]

#[cfg(test)]
mod tests {
    use fabric::RegisterFabric;
    use frame::{Body, Channel, FRAME_LENGTH, Message, NodeId, Request, write_frame};
    use node::{Node, Port, Role, Settings, State};
    use ring::{RingRefusal, Station, clear, deliver, fail, set_up, status, survivor, tick, ticks};
    use std::test::Fail;

    type Row = [Station<RegisterFabric>; 3];

    const CHANNEL: Channel = Channel {
        ring_id: 1,
        vid: 100,
    };

    // As in the other crates of examples, of which none stands on another.
    fn id(last: u8) -> NodeId {
        NodeId {
            octets: [0x00, 0x00, 0x5E, 0x00, 0x53, last],
        }
    }

    fn settings(last: u8, role: Role) -> Settings {
        Settings {
            id: id(last),
            channel: CHANNEL,
            mel: 7,
            role,
            rpl: Port::Zero,
            revertive: true,
        }
    }

    fn station(last: u8, role: Role) -> Result<Station<RegisterFabric>, Fail> {
        let mut fabric = RegisterFabric { word: 0 };
        let node = Node::set_up(settings(last, role), &mut fabric).map_err(|_| Fail::new(
            "settings",
        ))?;
        Ok(Station {
            values: node.values,
            fabric,
        })
    }

    // An owner and two others, IDs 1, 5 and 9.
    fn new_row() -> Result<Row, Fail> {
        Ok([
            station(1, Role::Owner)?,
            station(5, Role::Other)?,
            station(9, Role::Other)?,
        ])
    }

    fn frame(last: u8, request: Request) -> Result<[u8; FRAME_LENGTH], Fail> {
        let message = Message {
            node: id(last),
            body: Body::Signal {
                request,
                dnf: false,
                bpr: false,
            },
        };
        let mut octets = [0; FRAME_LENGTH];
        write_frame(message, CHANNEL, 7, &mut octets).map_err(|_| Fail::new("frame"))?;
        Ok(octets)
    }

    // The number of a refusal and its places; none where the call was taken.
    fn refusal(answer: Result<(), RingRefusal>) -> Option<(u8, Option<usize>, Option<u8>)> {
        answer.err().map(|refusal| (refusal.cause.number(), refusal.station, refusal.port))
    }

    #[test]
    fn rows_and_stations(rt: HostRuntime) -> Result<(), Fail> {
        let mut alone = [station(1, Role::Owner)?];
        assert_eq!(rt; refusal(tick(&mut alone, 0)), Some((14, None, None)));
        let mut row = new_row()?;
        assert_eq!(rt; refusal(tick(&mut row, 3)), Some((16, None, None)));
        assert_eq!(rt; refusal(fail(&mut row, 1, 2)), Some((8, Some(1), Some(2))));
        assert_eq!(rt; refusal(clear(&mut row, 2)), Some((10, Some(2), None)));
        assert_eq!(rt; refusal(fail(&mut row, 2, 1)), None);
        Ok(())
    }

    #[test]
    fn two_alike_are_not_lawful(rt: HostRuntime) -> Result<(), Fail> {
        let mut row = [
            station(1, Role::Owner)?,
            station(5, Role::Other)?,
            station(5, Role::Other)?,
        ];
        assert_eq!(rt; refusal(tick(&mut row, 0)), Some((15, None, None)));
        let mut owners = [station(1, Role::Owner)?, station(5, Role::Owner)?];
        assert_eq!(rt; refusal(tick(&mut owners, 0)), Some((15, None, None)));
        Ok(())
    }

    #[test]
    fn messages_name_stations(rt: HostRuntime) -> Result<(), Fail> {
        let mut row = new_row()?;
        let nobody = frame(7, Request::SignalFail)?;
        assert_eq!(rt;
            refusal(deliver(&mut row, 1, 0, &nobody)),
            Some((17, Some(1), Some(0)))
        );
        let usurper = frame(9, Request::RplBlocked)?;
        assert_eq!(rt;
            refusal(deliver(&mut row, 1, 1, &usurper)),
            Some((18, Some(1), Some(1)))
        );
        let short = frame(9, Request::NoRequest)?;
        assert_eq!(rt;
            refusal(deliver(&mut row, 1, 1, &short[0..FRAME_LENGTH - 1])),
            Some((1, Some(1), Some(1)))
        );
        Ok(())
    }

    // NR from 9 opens port 0 of station 5 and touches no other.
    #[test]
    fn one_station_moves(rt: HostRuntime) -> Result<(), Fail> {
        let mut row = new_row()?;
        let octets = frame(9, Request::NoRequest)?;
        assert_eq!(rt; refusal(deliver(&mut row, 1, 0, &octets)), None);
        assert_eq!(rt; row[0].fabric.word, 0x8000_0000);
        assert_eq!(rt; row[1].fabric.word, 0);
        assert_eq!(rt; row[2].fabric.word, 0x8000_0000);
        let held = status(&row, 1).map_err(|_| Fail::new("status"))?;
        assert_eq!(rt; held.state, State::Pending);
        assert_eq!(rt; held.sent, None);
        Ok(())
    }

    // The station of the answer, or the number of the refusal.
    fn who(answer: Result<Option<usize>, RingRefusal>) -> Result<Option<usize>, u8> {
        answer.map_err(|refusal| refusal.cause.number())
    }

    // 14, 13 and 15 leave the row; then each station has its own settings, the owner blocks its RPL port 1, all others port 0.
    #[test]
    fn a_row_is_set_up(rt: HostRuntime) -> Result<(), Fail> {
        let mut row = new_row()?;
        let mut owner = settings(8, Role::Owner);
        owner.rpl = Port::One;
        let good = [settings(2, Role::Other), owner, settings(6, Role::Other)];
        let two_owners = [good[0], settings(0x0A, Role::Owner), good[1]];
        assert_eq!(rt;
            refusal(set_up(&mut row, &good[0..2])),
            Some((14, None, None))
        );
        let mut out_of_range = good;
        out_of_range[1].mel = 8;
        assert_eq!(rt;
            refusal(set_up(&mut row, &out_of_range)),
            Some((13, Some(1), None))
        );
        assert_eq!(rt;
            refusal(set_up(&mut row, &two_owners)),
            Some((15, None, None))
        );
        assert_eq!(rt; row[0].values.settings.id.octets[5], 1);
        assert_eq!(rt; row[1].fabric.word, 0x8000_0000);
        assert_eq!(rt; refusal(set_up(&mut row, &good)), None);
        assert_eq!(rt; row[0].values.settings.id.octets[5], 2);
        assert_eq!(rt; row[1].values.settings.id.octets[5], 8);
        assert_eq!(rt; row[2].values.settings.id.octets[5], 6);
        assert_eq!(rt; row[0].fabric.word, 0x8000_0000);
        assert_eq!(rt; row[1].fabric.word, 0x4000_0000);
        assert_eq!(rt; row[2].fabric.word, 0x8000_0000);
        Ok(())
    }

    // All three send NR and 9 is the highest; with a failure it sends SF, and 5 is; at last all send SF, and none is.
    #[test]
    fn the_highest_survives(rt: HostRuntime) -> Result<(), Fail> {
        let mut row = new_row()?;
        assert_eq!(rt; who(survivor(&row)), Ok(Some(2)));
        assert_eq!(rt; refusal(fail(&mut row, 2, 1)), None);
        assert_eq!(rt; who(survivor(&row)), Ok(Some(1)));
        assert_eq!(rt; refusal(fail(&mut row, 1, 1)), None);
        assert_eq!(rt; refusal(fail(&mut row, 0, 1)), None);
        assert_eq!(rt; who(survivor(&row)), Ok(None));
        let alone = [station(1, Role::Owner)?];
        assert_eq!(rt; who(survivor(&alone)), Err(14));
        Ok(())
    }

    // WTR runs for five minutes: 30000 ticks at the owner, made in two parts.
    #[test]
    fn many_ticks(rt: HostRuntime) -> Result<(), Fail> {
        let mut row = new_row()?;
        assert_eq!(rt; refusal(ticks(&mut row, 0, 0)), None);
        assert_eq!(rt; row[0].values.timers.wtr, 30_000);
        assert_eq!(rt; refusal(ticks(&mut row, 0, 29_999)), None);
        assert_eq!(rt; row[0].values.timers.wtr, 1);
        assert_eq!(rt; row[0].values.state, State::Pending);
        assert_eq!(rt; refusal(ticks(&mut row, 0, 1)), None);
        assert_eq!(rt; row[0].values.state, State::Idle);
        assert_eq!(rt; refusal(ticks(&mut row, 3, 2)), Some((16, None, None)));
        Ok(())
    }
}
