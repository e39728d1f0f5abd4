//! What the definitions of events that can happen, of settled courses and of packets inside queues say of worked examples. The functions
//! do nothing.

ghost use Rattle.std.specs.Prelude.{◌≡◌, [], ◌∷◌};
ghost use Rattle.clk_sched.specs.Examples.Priority.{p0_0};
ghost use Rattle.clk_router.specs.Events.{CanHappen};
ghost use Rattle.clk_router.specs.Examples.{one_queue, sender_offers, stranger_offers};
ghost use Rattle.clk_router.specs.Drains.{StopsShort};
ghost use Rattle.clk_router.specs.InsideQueues.{AreOutOrInside, QueuesGoOn, heads_of, inside_of};
ghost use Rattle.clk_router.specs.Settled.{IsCourseAccounted, IsCourseSettled, AreOutOnce, AreAllOut, IsDrained};
ghost use Rattle.clk_router.specs.SettledExamples.{two_devices, one_drr, crossed, without_tree, without_queue, course_of, p0_1, emitted_there, emitted_elsewhere, left_inside, emitted_twice, never_offered, swapped, two_in_a_pull, refused_emitted, refused_held, evicted_emitted, queue_evicts, front_drop_refuses, stranger_emitted, lost, got_not_emitted, head_held, stranger_held};

/// Which events can happen over one queue: its sender can offer a packet, and a sender that the setup does not have cannot.
pub fn event_examples()
    ensures sender_offers { CanHappen one_queue sender_offers }
    ensures not_stranger_offers { ¬ (CanHappen one_queue stranger_offers) }
{}

/// A course is settled if its one packet is emitted by the device of its queue. It is not settled if the packet is emitted elsewhere or not
/// at all, if a refused packet is emitted, or if packets are swapped. Nor is it if a queue of either kind does what only the other kind
/// does. Nor is it if a packet of an unknown sender is emitted or held, or if a log is no run. A drain stopped short only if a packet is
/// left.
pub fn settled_examples()
    ensures emitted_there { IsCourseSettled two_devices emitted_there }
    ensures not_emitted_elsewhere { ¬ (IsCourseSettled two_devices emitted_elsewhere) }
    ensures not_left_inside { ¬ (IsCourseSettled two_devices left_inside) }
    ensures not_refused_emitted { ¬ (IsCourseSettled two_devices refused_emitted) }
    ensures not_swapped { ¬ (IsCourseSettled two_devices swapped) }
    ensures not_queue_evicts { ¬ (IsCourseSettled two_devices queue_evicts) }
    ensures not_front_drop_refuses { ¬ (IsCourseSettled two_devices front_drop_refuses) }
    ensures not_stranger_emitted { ¬ (IsCourseSettled two_devices stranger_emitted) }
    ensures not_got_not_emitted { ¬ (IsCourseSettled two_devices got_not_emitted) }
    ensures not_stranger_held { ¬ (IsCourseSettled one_drr stranger_held) }
    ensures drained { IsDrained (course_of emitted_there) }
    ensures not_drained { ¬ (IsDrained (course_of left_inside)) }
    ensures short { StopsShort (course_of left_inside) (course_of left_inside) 0 0 }
    ensures not_short { ¬ (StopsShort (course_of left_inside) (course_of emitted_there) 0 0) }
{}

/// A course is accounted for if one packet is held as a head and one in the queue. It is not accounted for if a packet is emitted
/// elsewhere, was never accepted, or is emitted out of order. Nor is it if a packet is emitted together with another in one pull, or after
/// it was evicted. Nor is it if a queue of either kind does what only the other kind does.
pub fn accounted_examples()
    ensures head_held { IsCourseAccounted one_drr head_held }
    ensures not_emitted_elsewhere { ¬ (IsCourseAccounted two_devices emitted_elsewhere) }
    ensures not_never_offered { ¬ (IsCourseAccounted two_devices never_offered) }
    ensures not_swapped { ¬ (IsCourseAccounted two_devices swapped) }
    ensures not_two_in_a_pull { ¬ (IsCourseAccounted two_devices two_in_a_pull) }
    ensures not_evicted_emitted { ¬ (IsCourseAccounted two_devices evicted_emitted) }
    ensures not_queue_evicts { ¬ (IsCourseAccounted two_devices queue_evicts) }
    ensures not_front_drop_refuses { ¬ (IsCourseAccounted two_devices front_drop_refuses) }
{}

/// Which packets are out of a router, and which are inside: first the head of a queue, then what the queue holds. No packet is out twice,
/// is out though it was never offered, is both out and inside, or is neither. `QueuesGoOn` doesn't hold if a queue stands in the tree of
/// another device, its device has no tree, or a tree stands over a queue that doesn't exist.
pub fn out_examples()
    ensures head_is_inside { inside_of one_drr 0 0 head_held ≡ p0_0 ∷ p0_1 ∷ [] }
    ensures head_is_first { heads_of one_drr 0 0 head_held ≡ p0_0 ∷ [] }
    ensures not_emitted_twice { ¬ (AreOutOnce two_devices emitted_twice) }
    ensures not_never_offered { ¬ (AreOutOnce two_devices never_offered) }
    ensures not_all_out { ¬ (AreAllOut two_devices left_inside) }
    ensures not_all_offered { ¬ (AreAllOut two_devices never_offered) }
    ensures not_refused_held { ¬ (AreOutOrInside two_devices refused_held) }
    ensures not_lost { ¬ (AreOutOrInside two_devices lost) }
    ensures not_more_than_offered { ¬ (AreOutOrInside two_devices never_offered) }
    ensures not_crossed { ¬ (QueuesGoOn crossed) }
    ensures not_without_tree { ¬ (QueuesGoOn without_tree) }
    ensures not_without_queue { ¬ (QueuesGoOn without_queue) }
{}
