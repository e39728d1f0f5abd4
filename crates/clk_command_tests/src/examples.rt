//! The examples: each script or trace over its tree is answered as it is said to be. `tests/examples` makes this file.

use clk_command_fixtures::Row;

/// Scripts, and then runs of traces.
pub const ROWS: [Row; 8] = [
    // branch-office
    (
        &[
            (
                "out/example.click",
                "// The uplink of a branch office: calls before all else; then office and guests, who share bytes three to one; and\n// telemetry, of which only the newest readings count, so that its queue drops at the front. All at two packets a tick.\ncalls :: Sender(10); office :: Sender(20); guests :: Sender(30); sensors :: Sender(40);\nqc :: Queue(20); qo, qg :: Queue(50);\nreadings :: FrontDropQueue(2);\nshares :: DRRSched(1500, 500);\nturns :: StrideSched(4, 1);\nurgent :: PrioSched;\npace :: Shaper(2, 2);\nuplink :: ToDevice(eth1);\n\ncalls -> qc -> [0] urgent;\noffice -> qo -> [0] shares; guests -> qg -> [1] shares;\nshares -> [0] turns;\nsensors -> readings -> [1] turns;\nturns -> [1] urgent;\nurgent -> pace -> uplink;\n",
            ),
            (
                "out/example.script",
                "send 40 80\nsend 40 81\nsend 40 82\nsend 20 1500\nsend 20 700\nsend 20 700\nsend 30 400\nsend 30 400\npull 1\npull 1\npull 1\nsend 10 200\npull 2\npull 2\nsend 40 83\nsend 10 200\npull 3\npull 3\npull 4\npull 4\ndrain 4\n",
            ),
        ],
        "script out/example.click out/example.script --visits out/example.csv",
        Ok(0),
        "40#0 80 accepted\n40#1 81 accepted\n40#2 82 accepted evicted 40#0\n20#0 1500 accepted\n20#1 700 accepted\n20#2 700 accepted\n30#0 400 accepted\n30#1 400 accepted\npull 1: 20#0 1500\npull 1: 40#1 81\npull 1: none\n10#0 200 accepted\npull 2: 10#0 200\npull 2: 30#0 400\n40#3 83 accepted\n10#1 200 accepted\npull 3: 10#1 200\npull 3: 20#1 700\npull 4: 20#2 700\npull 4: 30#1 400\npull 5: 40#2 82\npull 6: 40#3 83\nsender 10: sent 2 400, accepted 2 400, refused 0 0, evicted 0 0, emitted 2 400\nsender 20: sent 3 2900, accepted 3 2900, refused 0 0, evicted 0 0, emitted 3 2900\nsender 30: sent 2 800, accepted 2 800, refused 0 0, evicted 0 0, emitted 2 800\nsender 40: sent 4 326, accepted 4 326, refused 0 0, evicted 1 80, emitted 3 246\n",
        &[],
    ),
    // fair-shares
    (
        &[
            (
                "out/example.click",
                "// Three customers share a link by bytes, one to two to three: a round gives each input its quantum, in bytes. The\n// customers send packets of different lengths, which changes nothing in the shares.\nsilver :: Sender(1); gold :: Sender(2); platinum :: Sender(3);\ns, g, p :: Queue(100);\nshares :: DRRSched(500, 1000, 1500);\nlink :: ToDevice(link);\n\nsilver -> s -> [0] shares;\ngold -> g -> [1] shares;\nplatinum -> p -> [2] shares;\nshares -> link;\n",
            ),
            (
                "out/example.script",
                "send 1 250\nsend 1 250\nsend 1 250\nsend 1 250\nsend 1 250\nsend 1 250\nsend 2 1000\nsend 2 1000\nsend 2 1000\nsend 3 750\nsend 3 750\nsend 3 750\nsend 3 750\nsend 3 750\nsend 3 750\npull 1\npull 2\npull 3\npull 4\npull 5\npull 6\npull 7\npull 8\npull 9\npull 10\ndrain 10\n",
            ),
        ],
        "script out/example.click out/example.script --visits out/example.csv",
        Ok(0),
        "1#0 250 accepted\n1#1 250 accepted\n1#2 250 accepted\n1#3 250 accepted\n1#4 250 accepted\n1#5 250 accepted\n2#0 1000 accepted\n2#1 1000 accepted\n2#2 1000 accepted\n3#0 750 accepted\n3#1 750 accepted\n3#2 750 accepted\n3#3 750 accepted\n3#4 750 accepted\n3#5 750 accepted\npull 1: 1#0 250\npull 2: 1#1 250\npull 3: 2#0 1000\npull 4: 3#0 750\npull 5: 3#1 750\npull 6: 1#2 250\npull 7: 1#3 250\npull 8: 2#1 1000\npull 9: 3#2 750\npull 10: 3#3 750\npull 11: 1#4 250\npull 12: 1#5 250\npull 13: 2#2 1000\npull 14: 3#4 750\npull 15: 3#5 750\nsender 1: sent 6 1500, accepted 6 1500, refused 0 0, evicted 0 0, emitted 6 1500\nsender 2: sent 3 3000, accepted 3 3000, refused 0 0, evicted 0 0, emitted 3 3000\nsender 3: sent 6 4500, accepted 6 4500, refused 0 0, evicted 0 0, emitted 6 4500\n",
        &[],
    ),
    // shaped-uplink
    (
        &[
            (
                "out/example.click",
                "// One packet a tick (say, a millisecond), and after a silence up to three at once. Four packets wait, and more are\n// refused.\nlan :: Sender(0);\nwaiting :: Queue(4);\npace :: Shaper(1, 3);\nuplink :: ToDevice(ppp0);\n\nlan -> waiting -> pace -> uplink;\n",
            ),
            (
                "out/example.script",
                "send 0 1500\nsend 0 1500\nsend 0 1500\nsend 0 1500\nsend 0 1500\npull 10\npull 10\npull 10\npull 10\npull 11\nsend 0 64\nsend 0 64\npull 11\npull 12\npull 13\ndrain 20\n",
            ),
        ],
        "script out/example.click out/example.script --visits out/example.csv",
        Ok(0),
        "0#0 1500 accepted\n0#1 1500 accepted\n0#2 1500 accepted\n0#3 1500 accepted\n0#4 1500 refused\npull 10: 0#0 1500\npull 10: 0#1 1500\npull 10: 0#2 1500\npull 10: none\npull 11: 0#3 1500\n0#5 64 accepted\n0#6 64 accepted\npull 11: none\npull 12: 0#5 64\npull 13: 0#6 64\nsender 0: sent 7 7628, accepted 6 6128, refused 1 1500, evicted 0 0, emitted 6 6128\n",
        &[],
    ),
    // two-clocks
    (
        &[
            (
                "out/example.click",
                "// Two lines, each with a clock of its own: the fibre was pulled at moment 86400 when the radio link has just come up, with\n// one packet a tick, or two after a silence. Of the meters' readings only the newest counts.\ncity :: Sender(1); village :: Sender(2); meters :: Sender(3);\nqc :: Queue(2); qv :: Queue(4); reading :: FrontDropQueue(1);\nturns :: RoundRobinSched;\npace :: Shaper(1, 2);\nfibre :: ToDevice(eth0); radio :: ToDevice(wlan0);\n\ncity -> qc -> fibre;\nvillage -> qv -> [0] turns; meters -> reading -> [1] turns;\nturns -> pace -> radio;\n",
            ),
            (
                "out/example.script",
                "send 1 1500\nsend 1 1500\nsend 1 1500\npull 86400\nsend 2 700\nsend 2 701\nsend 2 702\nsend 3 40\nsend 3 41\npull 1 1\npull 1 1\npull 1 1\npull 86300\npull 2 1\nsend 1 60\nsend 2 703\ndrain 5\n",
            ),
        ],
        "script out/example.click out/example.script --visits out/example.csv",
        Ok(0),
        "1#0 1500 accepted\n1#1 1500 accepted\n1#2 1500 refused\npull 86400 0: 1#0 1500\n2#0 700 accepted\n2#1 701 accepted\n2#2 702 accepted\n3#0 40 accepted\n3#1 41 accepted evicted 3#0\npull 1 1: 2#0 700\npull 1 1: 3#1 41\npull 1 1: none\npull 86300 0: 1#1 1500\npull 2 1: 2#1 701\n1#3 60 accepted\n2#3 703 accepted\npull 86401 0: 1#3 60\npull 6 1: 2#2 702\npull 7 1: 2#3 703\nsender 1: sent 4 4560, accepted 3 3060, refused 1 1500, evicted 0 0, emitted 3 3060\nsender 2: sent 4 2806, accepted 4 2806, refused 0 0, evicted 0 0, emitted 4 2806\nsender 3: sent 2 81, accepted 2 81, refused 0 0, evicted 1 40, emitted 1 41\n",
        &[],
    ),
    // two-to-one
    (
        &[
            (
                "out/example.click",
                "// Two packets of the first sender for each packet of the second, as long as both have some.\nfirst, second :: Queue(50);\na :: Sender(7); b :: Sender(8);\nturns :: StrideSched(2, 1);\nlink :: ToDevice(link);\n\na -> first -> [0] turns;\nb -> second -> [1] turns;\nturns -> link;\n",
            ),
            (
                "out/example.script",
                "send 7 100\nsend 7 100\nsend 7 100\nsend 7 100\nsend 7 100\nsend 7 100\nsend 7 100\nsend 8 100\nsend 8 100\nsend 8 100\nsend 8 100\npull 1\npull 2\npull 3\npull 4\npull 5\npull 6\npull 7\npull 8\npull 9\npull 10\ndrain 11\n",
            ),
        ],
        "script out/example.click out/example.script --visits out/example.csv",
        Ok(0),
        "7#0 100 accepted\n7#1 100 accepted\n7#2 100 accepted\n7#3 100 accepted\n7#4 100 accepted\n7#5 100 accepted\n7#6 100 accepted\n8#0 100 accepted\n8#1 100 accepted\n8#2 100 accepted\n8#3 100 accepted\npull 1: 7#0 100\npull 2: 8#0 100\npull 3: 7#1 100\npull 4: 7#2 100\npull 5: 8#1 100\npull 6: 7#3 100\npull 7: 7#4 100\npull 8: 8#2 100\npull 9: 7#5 100\npull 10: 7#6 100\npull 12: 8#3 100\nsender 7: sent 7 700, accepted 7 700, refused 0 0, evicted 0 0, emitted 7 700\nsender 8: sent 4 400, accepted 4 400, refused 0 0, evicted 0 0, emitted 4 400\n",
        &[],
    ),
    // two-uplinks
    (
        &[
            (
                "out/example.click",
                "// A router with two uplinks, each with a scheduler of its own. Over the DSL line, device 0, calls go before web pages.\n// Over the mobile line, device 1, backups and updates share two to one by bytes.\ncalls :: Sender(0); web :: Sender(1); backups :: Sender(2); updates :: Sender(3);\nqc, qw :: Queue(10); qb, qu :: Queue(3);\nurgent :: PrioSched;\nshares :: DRRSched(1000, 500);\ndsl :: ToDevice(ppp0); mobile :: ToDevice(wwan0);\n\ncalls -> qc -> [0] urgent; web -> qw -> [1] urgent;\nurgent -> dsl;\nbackups -> qb -> [0] shares; updates -> qu -> [1] shares;\nshares -> mobile;\n",
            ),
            (
                "out/example.script",
                "send 1 1500\nsend 1 900\nsend 0 160\nsend 2 1000\nsend 2 1000\nsend 2 1000\nsend 2 1000\nsend 3 500\nsend 3 500\npull 1 0\npull 1 1\npull 2 0\npull 2 1\nsend 0 160\npull 3 0\npull 3 1\ndrain 5\n",
            ),
        ],
        "script out/example.click out/example.script --visits out/example.csv",
        Ok(0),
        "1#0 1500 accepted\n1#1 900 accepted\n0#0 160 accepted\n2#0 1000 accepted\n2#1 1000 accepted\n2#2 1000 accepted\n2#3 1000 refused\n3#0 500 accepted\n3#1 500 accepted\npull 1 0: 0#0 160\npull 1 1: 2#0 1000\npull 2 0: 1#0 1500\npull 2 1: 3#0 500\n0#1 160 accepted\npull 3 0: 0#1 160\npull 3 1: 2#1 1000\npull 6 0: 1#1 900\npull 6 1: 3#1 500\npull 7 1: 2#2 1000\nsender 0: sent 2 320, accepted 2 320, refused 0 0, evicted 0 0, emitted 2 320\nsender 1: sent 2 2400, accepted 2 2400, refused 0 0, evicted 0 0, emitted 2 2400\nsender 2: sent 4 4000, accepted 3 3000, refused 1 1000, evicted 0 0, emitted 3 3000\nsender 3: sent 2 1000, accepted 2 1000, refused 0 0, evicted 0 0, emitted 2 1000\n",
        &[(
            "out/example.csv",
            Some(
                "device,pull,node,input,fresh,sender,number,length,passed,moment\n0,0,1,0,1,0,0,160,1,1\n0,0,0,0,1,0,0,160,1,1\n0,1,1,0,1,,,,0,2\n0,1,1,1,1,1,0,1500,1,2\n0,1,0,0,1,1,0,1500,1,2\n0,2,1,0,1,0,1,160,1,3\n0,2,0,0,1,0,1,160,1,3\n0,3,1,0,1,,,,0,6\n0,3,1,1,1,1,1,900,1,6\n0,3,0,0,1,1,1,900,1,6\n1,0,1,0,1,2,0,1000,1,1\n1,0,0,0,1,2,0,1000,1,1\n1,1,1,0,1,2,1,1000,0,2\n1,1,1,1,1,3,0,500,1,2\n1,1,0,0,1,3,0,500,1,2\n1,2,1,1,1,3,1,500,0,3\n1,2,1,0,0,2,1,1000,1,3\n1,2,0,0,1,2,1,1000,1,3\n1,3,1,0,1,2,2,1000,0,6\n1,3,1,1,0,3,1,500,1,6\n1,3,0,0,1,3,1,500,1,6\n1,4,1,1,1,,,,0,7\n1,4,1,0,0,2,2,1000,1,7\n1,4,0,0,1,2,2,1000,1,7\n",
            ),
        )],
    ),
    // voice-over-bulk
    (
        &[
            (
                "out/example.click",
                "// Strict priority: a call's packets go first whenever there are some, and bulk transfers take what is left.\nvoice :: Sender(0); bulk :: Sender(1);\ncalls :: Queue(10); transfers :: Queue(10);\nfirst :: PrioSched;\nuplink :: ToDevice(eth0);\n\nvoice -> calls -> [0] first;\nbulk -> transfers -> [1] first;\nfirst -> uplink;\n",
            ),
            (
                "out/example.script",
                "send 1 1500\nsend 1 1500\nsend 1 1500\npull 1\nsend 0 160\npull 2\nsend 0 160\nsend 0 160\npull 3\npull 4\npull 5\ndrain 8\n",
            ),
        ],
        "script out/example.click out/example.script --visits out/example.csv",
        Ok(0),
        "1#0 1500 accepted\n1#1 1500 accepted\n1#2 1500 accepted\npull 1: 1#0 1500\n0#0 160 accepted\npull 2: 0#0 160\n0#1 160 accepted\n0#2 160 accepted\npull 3: 0#1 160\npull 4: 0#2 160\npull 5: 1#1 1500\npull 9: 1#2 1500\nsender 0: sent 3 480, accepted 3 480, refused 0 0, evicted 0 0, emitted 3 480\nsender 1: sent 3 4500, accepted 3 4500, refused 0 0, evicted 0 0, emitted 3 4500\n",
        &[],
    ),
    // night-backup
    (
        &[
            (
                "out/example.click",
                "// At night three offices back up over one link, each from a queue with room for all that it sends. The head office takes\n// half of the bytes, and the others share the rest, for as long as all have something to send. Whatever the order in\n// which their packets come, nothing is lost.\nheadquarters :: Sender(1); branch :: Sender(2); depot :: Sender(3);\nh, b, d :: Queue(100);\nshares :: DRRSched(3000, 1500, 1500);\nlink :: ToDevice(wan0);\n\nheadquarters -> h -> [0] shares;\nbranch -> b -> [1] shares;\ndepot -> d -> [2] shares;\nshares -> link;\n",
            ),
            (
                "out/example.trace",
                "1,1500\n2,1400\n3,600\n1,1500\n2,1400\n3,600\n1,1500\n2,1400\n3,600\n1,1500\n2,1400\n3,600\n1,1500\n2,1400\n3,600\n1,1500\n2,1400\n3,600\n1,1500\n2,1400\n3,600\n1,1500\n2,1400\n3,600\n1,1500\n2,1400\n3,600\n1,1500\n2,96\n3,600\n1,1500\n3,600\n1,1500\n3,64\n1,1500\n1,1500\n1,1500\n1,820\n",
            ),
        ],
        "run out/example.click out/example.trace",
        Ok(0),
        "sender 1: sent 16 23320, accepted 16 23320, refused 0 0, evicted 0 0, emitted 16 23320\nsender 2: sent 10 12696, accepted 10 12696, refused 0 0, evicted 0 0, emitted 10 12696\nsender 3: sent 12 6664, accepted 12 6664, refused 0 0, evicted 0 0, emitted 12 6664\n",
        &[],
    ),
];
