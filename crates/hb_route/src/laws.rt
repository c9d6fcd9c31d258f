//! Laws of ways. Each is the contract of a function that does nothing.

ghost use Rattle.std.specs.Prelude.{◌+◌, ◌-◌};
ghost use Rattle.hb_route.specs.Endpoint.{chosen};
ghost use Rattle.hb_route.specs.Opens.{one_more, one_less};
ghost use Rattle.hb_route.specs.Laws.{Steps, sets_to_one, keeps_one_name, ChoosesFirst, first_listed, smallest_name, no_choice};
ghost use Rattle.hb_route.specs.Laws.{PlacesServe, NoPlaceIsMissed};
ghost use Rattle.hb_route.specs.Laws.{FewerGoesFirst, SmallerNameGoesFirst, PlainGoesStraight, SickIsPassedOver, NoneIsHealthy};
ghost use Rattle.hb_route.specs.Laws.{OtherPortIsRefused, UnledPortIsRefused, StrangerIsRefused};
ghost use Rattle.hb_route.specs.Laws.{WorkloadIsReached, PlainWorkloadIsReached, ElsewhereGoesStraight};
ghost use Rattle.hb_route.specs.Laws.{BusierGoesFirst, SickIsReached, GatewayIsPassedBy, ServicePortIsReached, UnledPortIsReached};
ghost use Rattle.hb_route.specs.WaypointLaws.{WaypointsAreGoneThrough, NothingGoesPast, NoWaypointIsMissed, GatewaysAreNextToTheirTargets};
ghost use Rattle.hb_route.specs.WaypointLaws.{FewerIsGoneThrough, SmallerNameIsGoneThrough, ServiceIsGoneThrough, WorkloadIsGoneThrough};
ghost use Rattle.hb_route.specs.WaypointLaws.{WorkloadIsBehindItsOwn, ServiceGoesWithoutWorkloads, WorkloadGoesWithoutServices};
ghost use Rattle.hb_route.specs.WaypointLaws.{SickWaypointIsPassedOver, NoWaypointIsHealthy, WaypointsPortIsTooLarge, HostnameIsUnknown};
ghost use Rattle.hb_route.specs.WaypointLaws.{AddressIsUnknown, NetworkIsAnother, WaypointIsPassedBy, SickWaypointIsPassedBy};
ghost use Rattle.hb_route.specs.WaypointLaws.{SickWaypointIsGoneStraight, WaypointIsTheAuthority, NamedPortIsPassedBy, BusierIsGoneThrough};
ghost use Rattle.hb_route.specs.WaypointLaws.{OtherNetworkIsGoneThrough, WorkloadsWaypointIsAsked, ServicesWaypointIsAsked};

/// The number of open connections changes by one at the name that is told, and stays at each other name.
pub fn opens_are_counted()
    ensures more { Steps one_more (λ n. n + 1) }
    ensures fewer { Steps one_less (λ n. n - 1) }
    ensures first_alone { Steps sets_to_one (λ n. n + 1) → ⊥ }
    ensures one_name { Steps keeps_one_name (λ n. n + 1) → ⊥ }
{}

/// The endpoint chosen has the fewest connections open, and of those that have as few the smallest name; none is chosen only where
/// there is none.
pub fn the_first_is_chosen()
    ensures chosen { ChoosesFirst chosen }
    ensures listed { ChoosesFirst first_listed → ⊥ }
    ensures named { ChoosesFirst smallest_name → ⊥ }
    ensures none { ChoosesFirst no_choice → ⊥ }
{}

/// The endpoints of a hostname, that of a service or of a waypoint, are the workloads held that serve it, are healthy, have an address
/// and have a port, for a port of a service the one to which their entry leads, and no others.
pub fn endpoints_serve()
    ensures only { PlacesServe }
    ensures all { NoPlaceIsMissed }
{}

/// Where a waypoint stands in front of a destination nothing goes past it: the gateway is that on one of the waypoint's workloads, of
/// those the one with the fewest connections open, and it is asked for the destination itself; no way is refused but where none of them
/// takes connections. Where no waypoint stands in front a gateway has the address of the authority that it is asked for, and the port of
/// gateways.
pub fn waypoints_are_gone_through()
    ensures through { WaypointsAreGoneThrough }
    ensures straight { NothingGoesPast }
    ensures missed { NoWaypointIsMissed }
    ensures none { GatewaysAreNextToTheirTargets }
{}

/// Ways through small meshes, one for each kind of way and for each reason that there is none.
pub fn small_meshes_have_their_ways()
    ensures fewer { FewerGoesFirst }
    ensures name { SmallerNameGoesFirst }
    ensures plain { PlainGoesStraight }
    ensures sick { SickIsPassedOver }
    ensures none_healthy { NoneIsHealthy }
    ensures port { OtherPortIsRefused }
    ensures entry { UnledPortIsRefused }
    ensures source { StrangerIsRefused }
    ensures workload { WorkloadIsReached }
    ensures plain_workload { PlainWorkloadIsReached }
    ensures elsewhere { ElsewhereGoesStraight }
{}

/// Ways that no connection takes through these meshes.
pub fn wrong_ways_are_refused()
    ensures busier { BusierGoesFirst → ⊥ }
    ensures sick { SickIsReached → ⊥ }
    ensures straight { GatewayIsPassedBy → ⊥ }
    ensures port { ServicePortIsReached → ⊥ }
    ensures entry { UnledPortIsReached → ⊥ }
{}

/// Ways through small meshes with waypoints: one for each way to find a waypoint, and for each reason that there is no way.
pub fn small_meshes_have_their_waypoints()
    ensures fewer { FewerIsGoneThrough }
    ensures smaller_name { SmallerNameIsGoneThrough }
    ensures by_service { ServiceIsGoneThrough }
    ensures by_workload { WorkloadIsGoneThrough }
    ensures its_own { WorkloadIsBehindItsOwn }
    ensures without_workloads { ServiceGoesWithoutWorkloads }
    ensures without_services { WorkloadGoesWithoutServices }
    ensures sick_passed_over { SickWaypointIsPassedOver }
    ensures none_healthy { NoWaypointIsHealthy }
    ensures port_too_large { WaypointsPortIsTooLarge }
    ensures hostname_unknown { HostnameIsUnknown }
    ensures address_unknown { AddressIsUnknown }
    ensures another_network { NetworkIsAnother }
{}

/// Ways that no connection takes through these meshes.
pub fn wrong_waypoints_are_refused()
    ensures passed_by { WaypointIsPassedBy → ⊥ }
    ensures sick_passed_by { SickWaypointIsPassedBy → ⊥ }
    ensures gone_straight { SickWaypointIsGoneStraight → ⊥ }
    ensures waypoint_asked_for { WaypointIsTheAuthority → ⊥ }
    ensures named_port { NamedPortIsPassedBy → ⊥ }
    ensures busier { BusierIsGoneThrough → ⊥ }
    ensures other_network { OtherNetworkIsGoneThrough → ⊥ }
    ensures workloads_asked { WorkloadsWaypointIsAsked → ⊥ }
    ensures services_asked { ServicesWaypointIsAsked → ⊥ }
{}
